use keep_acts::Made;
use keep_sources::Skipped;

/// What a backup came to.
#[derive(Drop)]
pub struct BackedUp {
    /// The last change, which adds the snapshot.
    pub made: Made,
    /// How many changes were committed before it, each of which stores a part.
    pub parts: u64,
    /// What isn't in the backup, or not as it was seen.
    pub skipped: Vec<Skipped>,
}
