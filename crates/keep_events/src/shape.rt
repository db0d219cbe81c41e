ghost use Rattle.std.specs.Prelude.{◌≡◌, IfOk};
ghost use Rattle.keep_change.specs.Lists.{file_names};
ghost use Rattle.keep_events.specs.Deeds as spec;

use keep_change::{Change, StoredFile};
use keep_names::{FileName, Kind};
use std::alloc::{AllocError, Global};

/// How many files of each kind.
#[derive(Clone, Copy, Debug, PartialEq, Eq)]
pub struct Files {
    pub snapshots: usize,
    pub indexes: usize,
    pub packs: usize,
}

/// How much a change writes.
#[derive(Clone, Copy, Debug, PartialEq, Eq)]
pub struct Shape {
    pub adds: Files,
    pub drops: Files,
    /// How many files it adds and drops.
    pub added: usize,
    pub dropped: usize,
    /// How many marks it sets and clears.
    pub sets: usize,
    pub clears: usize,
}

/// How many files of each kind a change adds and drops, and how many marks it sets and clears.
pub fn shape_of(alloc: Global, change: &Change) -> Result<Shape, AllocError>
    ensures { IfOk result (λ shape. shape ≡ spec.shape_of change.now) }
{
    let adds = names_of(alloc, change.adds.as_slice())?;
    let drops = names_of(alloc, change.drops.as_slice())?;
    Ok(Shape {
        adds: files_of(&adds),
        drops: files_of(&drops),
        added: change.adds.as_slice().len(),
        dropped: change.drops.as_slice().len(),
        sets: change.sets.as_slice().len(),
        clears: change.clears.as_slice().len(),
    })
}

fn names_of(alloc: Global, files: &[StoredFile]) -> Result<Vec<FileName>, AllocError>
    ensures { IfOk result (λ names. names.items ≡ file_names files.now) }
{
    files.iter().map(|file| file.name()).collect(alloc)
}

fn files_of(names: &[FileName]) -> Files
    ensures { result ≡ spec.files_of names.now }
{
    let mut files = Files {
        snapshots: 0,
        indexes: 0,
        packs: 0,
    };
    for name in names {
        match name.kind {
            Kind::Pack => files.packs += 1,
            Kind::Index => files.indexes += 1,
            Kind::Snapshot => files.snapshots += 1,
        }
    }
    files
}
