ghost use Rattle.std.specs.Prelude.{◌≡◌, [], IfOk};
ghost use Rattle.std.specs.List.{list_any};
ghost use Rattle.std.specs.Ordering.{eq_by_cmp};
ghost use Rattle.keep_index.specs.Index.{Fits, index_view};
ghost use Rattle.keep_names.specs.FileName.{named};
ghost use Rattle.keep_names.specs.Orders.{name_cmp};
ghost use Rattle.keep_names.specs.declared.file_name.Kind.TheVariants as the_kind;
ghost use Rattle.keep_change.specs.Filling.{has_name};
ghost use Rattle.keep_change.specs.Lists.{file_names};
ghost use Rattle.keep_upkeep.specs.Reindexing as spec;

use keep_change::{Change, Listed, StoredFile};
use keep_index::{Index, write_index, written_indexes_read_back};
use keep_names::{FileName, Id, Kind};
use keep_plan::{Reuses, store_built};
use keep_repo::Repo;
use std::alloc::{AllocError, Global};

/// The file of an index, if it lists any pack.
#[tactic(auto, unfolding(crate::specs::Reindexing::index_files))]
pub(crate) fn index_files(alloc: Global, index: &Index) -> Result<Vec<StoredFile>, AllocError>
    ensures files { IfOk result (λ files. files.items ≡ spec.index_files (index_view index.now)) }
    ensures fits { IfOk result (λ _. Fits (index_view index.now)) }
{
    written_indexes_read_back();
    let mut files = Vec::new(alloc);
    if index.packs.is_empty() {
        return Ok(files);
    }
    let text = write_index(alloc, index)?;
    let file = StoredFile::of(alloc, Kind::Index, text)?;
    files.push(file)?;
    Ok(files)
}

/// Those of these indexes that aren't among the new files.
pub(crate) fn other_indexes(
    alloc: Global,
    built: &[StoredFile],
    ids: &[Id],
) -> Result<Vec<Id>, AllocError>
    ensures { IfOk result (λ others. others.items ≡ spec.other_indexes built.now ids.now) }
{
    ids.iter()
        .copied()
        .filter(|id| !has_index(built, *id))
        .collect(alloc)
}

/// Whether the index is among the files.
pub(crate) fn has_index(files: &[StoredFile], id: Id) -> bool
    ensures { result ≡ has_name (file_names files.now) (named the_kind.Index id) }
{
    has_file(files, FileName::index(id))
}

/// Whether a file of this name is among them.
fn has_file(files: &[StoredFile], name: FileName) -> bool
    ensures { result ≡ list_any (λ file. eq_by_cmp name_cmp name file.name) files.now }
{
    files.iter().any(|file| is_named(file, name))
}

fn is_named(file: &StoredFile, name: FileName) -> bool
    ensures { result ≡ eq_by_cmp name_cmp name file.now.name }
{
    name == file.name()
}

/// The change that puts new files in the place of others.
pub(crate) fn reindexed(
    alloc: Global,
    repo: &Repo,
    built: Vec<StoredFile>,
    drops: Vec<StoredFile>,
) -> Result<Change, AllocError>
    ensures { IfOk result (λ change. change ≡ spec.reindexing repo.now built.items drops.items [] []) }
{
    let stored = store_built(alloc, repo, built, Reuses::new(alloc))?;
    let mut change = Change::new(alloc);
    change.adds = stored.adds;
    change.drops = Listed::from_vec(drops);
    change.present = stored.present;
    Ok(change)
}
