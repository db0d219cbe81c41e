use keep_rope::Rope;

/// What was done with a tree in memory, by paths.
#[derive(Drop)]
pub(crate) enum DoneAct {
    Write(String, Rope),
    /// From the first path to the second.
    Rename(String, String),
    Remove(String),
    Make(String),
    Sync(String),
}
