ghost use Rattle.std.specs.Prelude.{◌≡◌, IfOk};
ghost use Rattle.keep_names.specs.declared.file_name.Kind.TheVariants.{Snapshot};
ghost use Rattle.keep_plan.specs.FilesThere.{files_there};
ghost use Rattle.keep_labels.specs.Swapping as spec;

use keep_change::{Change, Listed, StoredFile};
use keep_names::{Id, Kind};
use keep_plan::put_files;
use keep_repo::Repo;
use std::alloc::{AllocError, Global};

/// The files of these snapshots.
pub(crate) fn snapshot_files(
    alloc: Global,
    repo: &Repo,
    names: &[Id],
) -> Result<Vec<StoredFile>, AllocError>
    ensures { IfOk result (λ files. files.items ≡ files_there repo.now Snapshot names.now) }
{
    let mut files = Vec::new(alloc);
    put_files(repo, Kind::Snapshot, names, &mut files)?;
    Ok(files)
}

/// The change that drops and adds these files, and does nothing else.
pub(crate) fn swap(alloc: Global, drops: Vec<StoredFile>, adds: Vec<StoredFile>) -> Change
    ensures { result ≡ spec.swapping drops.items adds.items }
{
    let mut change = Change::new(alloc);
    change.drops = Listed::from_vec(drops);
    change.adds = Listed::from_vec(adds);
    change
}
