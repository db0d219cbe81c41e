ghost use Rattle.std.specs.Prelude.{◌≡◌, IfOk, List};
ghost use Rattle.keep_names.specs.declared.blob.BlobId as the_blob;
ghost use Rattle.keep_plan.specs.Reuse.{RestOn};
ghost use Rattle.keep_plan.specs.Storing.{stored_built};

use crate::built_files::{first_differing, ids_in, names_in, split_files, split_marks};
use crate::reuses::Reuses;
use keep_change::{Listed, PackMark, StoredFile};
use keep_names::{FileName, Id};
use keep_repo::Repo;
use std::alloc::{AllocError, Global};

/// What is stored, and what that relies on. Each list is in order, and nothing stands twice.
#[derive(Drop)]
pub struct Stored {
    /// The files that are built and absent.
    pub adds: Listed<StoredFile>,
    /// The marks on built packs, with their moments.
    pub clears: Listed<PackMark>,
    /// The files that are built and there, and the packs and indexes of the blobs that are used where they are.
    pub present: Listed<FileName>,
    /// The packs, built or of blobs that are used where they are, that have no mark.
    pub unmarked: Listed<Id>,
    /// The first of the built files that is there with other bytes: it was damaged. It is among `present` too.
    pub differing: Option<FileName>,
}

/// What becomes of files that were built, beside the uses of blobs where they are.
pub fn store_built(
    alloc: Global,
    repo: &Repo,
    built: Vec<StoredFile>,
    reuses: Reuses,
) -> Result<Stored, AllocError>
    ensures { IfOk result (λ stored. (used : List the_blob.BlobId) → RestOn repo.now used reuses
        → stored ≡ stored_built repo.now used built.items) }
{
    let Reuses {
        mut present,
        mut unmarked,
    } = reuses;
    let differing = first_differing(repo, &built);
    let clears = split_marks(alloc, repo, &built, &mut unmarked)?;
    let adds = split_files(alloc, repo, built, &mut present)?;
    let present = names_in(alloc, present)?;
    let unmarked = ids_in(alloc, unmarked)?;
    Ok(Stored {
        adds: Listed::from_vec(adds),
        clears: Listed::from_vec(clears),
        present: Listed::from_vec(present),
        unmarked: Listed::from_vec(unmarked),
        differing,
    })
}
