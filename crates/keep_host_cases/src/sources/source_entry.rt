use keep_sources::{Stat, Why};

/// What lies at a path.
#[derive(Drop)]
pub struct Entry {
    /// What a look tells. A file that changes has another size here than it holds bytes.
    pub sight: Stat,
    /// What a file holds when it is read.
    pub content: Vec<u8>,
    /// How many names of a folder can't be said.
    pub unsayable: u64,
    /// Which call fails, if one does.
    pub failure: Option<Failure>,
}

/// A call that fails, and why.
#[derive(Clone, Copy, Debug, PartialEq, Eq)]
pub enum Failure {
    Look(Why),
    List(Why),
    Open(Why),
    /// The reads from this offset on.
    Read(u64, Why),
}
