ghost use Rattle.std.specs.Prelude.{◌≡◌, [], ◌∷◌};
ghost use Rattle.keep_plan.specs.Files as spec;

use keep_names::{FileName, Id};
use std::alloc::{AllocError, Global};
use std::collections::BTreeSet;

/// What uses of blobs where they are rest on.
#[derive(Drop)]
pub struct Reuses {
    /// The packs and indexes that have to be present.
    pub present: BTreeSet<FileName>,
    /// Those packs, which must have no mark.
    pub unmarked: BTreeSet<Id>,
}

impl Reuses {
    ghost use Rattle.std.specs.Prelude.{◌≡◌, Some, [], ◌∷◌, ◌++◌, List, OnOk};
    ghost use Rattle.keep_names.specs.declared.blob.BlobId as the_blob;
    ghost use Rattle.keep_repo.specs.Repository.{Repository};
    ghost use Rattle.keep_catalog.specs.Places.{reuse_of};
    ghost use Rattle.keep_plan.specs.Reuse.{RestOn};

    /// No blob is used yet.
    pub fn new(alloc: Global) -> Reuses
        ensures { (r : Repository) → RestOn r [] result }
    {
        Reuses {
            present: BTreeSet::new(alloc),
            unmarked: BTreeSet::new(alloc),
        }
    }

    /// One more blob is used where it is: in this pack, where this is the least-named index that lists its
    /// chosen place.
    pub fn rest_on(&mut self, pack: Id, index: Id) -> Result<(), AllocError>
        ensures { OnOk result ((r : Repository) (blobs : List the_blob.BlobId) (blob : the_blob.BlobId)
            → reuse_of r blob ≡ Some (pack, index) → RestOn r blobs self.old
            → RestOn r (blobs ++ blob ∷ []) self.new) }
    {
        let (pack_file, index_file) = files_used(pack, index);
        self.present.insert(pack_file)?;
        self.present.insert(index_file)?;
        self.unmarked.insert(pack)?;
        Ok(())
    }
}

/// The files that such a use rests on.
fn files_used(pack: Id, index: Id) -> (FileName, FileName)
    ensures { result.0 ∷ result.1 ∷ [] ≡ spec.files_used (pack, index) }
{
    (FileName::pack(pack), FileName::index(index))
}
