ghost use Rattle.std.specs.Prelude.{◌≡◌, [], false};

use crate::listed::Listed;
use crate::stored_file::StoredFile;
use keep_names::{FileName, Id};
use keep_repo::Mark;
use std::alloc::Global;

/// A mark that a change sets or clears.
#[derive(Clone, Copy, PartialEq, Eq)]
pub struct PackMark {
    pub pack: Id,
    pub mark: Mark,
}

/// What one command does to a repository, and what it relied on.
pub struct Change {
    /// Files to be put where there are none.
    pub adds: Listed<StoredFile>,
    /// Files to be moved away. They have just these bytes.
    pub drops: Listed<StoredFile>,
    /// Marks to be put where there are none.
    pub sets: Listed<PackMark>,
    /// Marks to be taken away. They have just these moments.
    pub clears: Listed<PackMark>,
    /// Files that have to be there.
    pub present: Listed<FileName>,
    /// Files that must not be there.
    pub absent: Listed<FileName>,
    /// Packs that have to be marked.
    pub marked: Listed<Id>,
    /// Packs that must not be marked.
    pub unmarked: Listed<Id>,
    /// Whether it may be committed only where nothing happened since it was planned.
    pub strict: bool,
}

// One call drops it, where each `?` would else drop each part of it, which is long to prove.
impl Drop for Change {
    fn drop(self) {
        let Change {
            adds: _,
            drops: _,
            sets: _,
            clears: _,
            present: _,
            absent: _,
            marked: _,
            unmarked: _,
            strict: _,
        } = self;
    }
}

impl Change {
    /// The change with eight empty lists, to be filled. It isn't strict.
    pub fn new(alloc: Global) -> Change
        ensures { result ≡ record {
          adds = [];
          drops = [];
          sets = [];
          clears = [];
          present = [];
          absent = [];
          marked = [];
          unmarked = [];
          strict = false;
        } }
    {
        Change {
            adds: Listed::new(alloc),
            drops: Listed::new(alloc),
            sets: Listed::new(alloc),
            clears: Listed::new(alloc),
            present: Listed::new(alloc),
            absent: Listed::new(alloc),
            marked: Listed::new(alloc),
            unmarked: Listed::new(alloc),
            strict: false,
        }
    }
}

/// A change, with the length of the history that it was planned on.
#[derive(Drop)]
pub struct Planned {
    pub change: Change,
    pub seen: u64,
}
