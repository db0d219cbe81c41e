ghost use Rattle.std.specs.Prelude.{◌≡◌, IfOk};
ghost use Rattle.keep_change.specs.Lists as spec;
ghost use Rattle.keep_change.specs.Outline.{outline_of, empty_outline};

use crate::change::{Change, PackMark};
use crate::listed::Listed;
use crate::stored_file::StoredFile;
use keep_names::{FileName, Id};
use std::alloc::{AllocError, Global};

/// The kinds of events.
#[derive(Clone, Copy, PartialEq, Eq)]
pub enum What {
    Commit,
    Undo,
    Redo,
    Empty,
}

/// An event without bytes: its kind, the change's number, and what the change writes. The lists
/// are empty for an emptying of the trash.
pub struct Outline {
    pub what: What,
    pub number: u64,
    pub adds: Listed<FileName>,
    pub drops: Listed<FileName>,
    pub sets: Listed<Id>,
    pub clears: Listed<Id>,
}

// One call drops it, where each `?` would else drop each part of it, which is long to prove.
impl Drop for Outline {
    fn drop(self) {
        let Outline {
            what: _,
            number: _,
            adds: _,
            drops: _,
            sets: _,
            clears: _,
        } = self;
    }
}

impl Outline {
    /// The outline of a commit, an undo or a redo of the change.
    pub fn of(
        alloc: Global,
        what: What,
        number: u64,
        change: &Change,
    ) -> Result<Outline, AllocError>
        ensures { IfOk result (λ made. made ≡ outline_of what number change.now) }
    {
        let adds = file_names(alloc, change.adds.as_slice())?;
        let drops = file_names(alloc, change.drops.as_slice())?;
        let sets = marked_packs(alloc, change.sets.as_slice())?;
        let clears = marked_packs(alloc, change.clears.as_slice())?;
        Ok(Outline {
            what,
            number,
            adds: Listed::from_vec(adds),
            drops: Listed::from_vec(drops),
            sets: Listed::from_vec(sets),
            clears: Listed::from_vec(clears),
        })
    }

    /// The outline of an emptying up to the change of this number.
    pub fn of_empty(alloc: Global, number: u64) -> Outline
        ensures { result ≡ empty_outline number }
    {
        Outline {
            what: What::Empty,
            number,
            adds: Listed::new(alloc),
            drops: Listed::new(alloc),
            sets: Listed::new(alloc),
            clears: Listed::new(alloc),
        }
    }
}

fn file_names(alloc: Global, files: &[StoredFile]) -> Result<Vec<FileName>, AllocError>
    ensures { IfOk result (λ names. names.items ≡ spec.file_names files.now) }
{
    files.iter().map(|file| file.name()).collect(alloc)
}

fn marked_packs(alloc: Global, marks: &[PackMark]) -> Result<Vec<Id>, AllocError>
    ensures { IfOk result (λ packs. packs.items ≡ spec.marked_packs marks.now) }
{
    marks.iter().map(|set| set.pack).collect(alloc)
}
