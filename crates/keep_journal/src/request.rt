use keep_change::Planned;

/// What can be asked of a history.
#[derive(Drop)]
pub enum Request {
    /// To make a change, which was planned on a history of some length.
    Commit(Planned),
    /// To take the change of this number back.
    Undo(u64),
    /// To make it again, at its place.
    Redo(u64),
    /// To make all changes up to this one final.
    Empty(u64),
}

/// What an accepted request is told: the number of its change, and of its event.
#[derive(Clone, Copy, Debug, PartialEq, Eq)]
pub struct Told {
    pub number: u64,
    pub at: u64,
}
