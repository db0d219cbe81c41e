use keep_journal::Event;

/// What stands under the key of an entry: a leaf of the journal.
#[derive(Drop)]
pub struct Leaf {
    /// The number in the key.
    pub at: u64,
    /// The event that its bytes spell, if they spell one.
    pub event: Option<Event>,
}
