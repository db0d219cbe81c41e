ghost use Rattle.std.specs.Prelude.{◌≡◌, ◌≢◌, ◌↔◌, false, None, Err, IsTrue, option_map};
ghost use Rattle.keep_docs.specs.Doc.{Answers};
ghost use Rattle.keep_docs.specs.declared.doc.DocError.TheVariants as the_doc_error;
ghost use Rattle.keep_repo.specs.Repository.{is_filled};
ghost use Rattle.keep_snap.specs.declared.snap.SnapError.TheVariants.{Doc};
ghost use Rattle.keep_catalog.specs.Files.{snap_in};
ghost use Rattle.keep_catalog.specs.declared.reach_error.ReachError.TheVariants.{Memory};
ghost use Rattle.keep_read.specs.Restored.{snapshot_facet};
ghost use Rattle.keep_read.specs.declared.restore_error.RestoreError.TheVariants.{NoSnapshot, Reach};
ghost use Rattle.keep_nodes.specs.Listed.{root_due};

use keep_catalog::{Catalog, FileError, ReachError, Unread};
use keep_docs::DocError;
use keep_names::{FileName, Id};
use keep_read::RestoreError;
use keep_repo::Repo;
use keep_snap::{SnapError, read_snap};
use std::alloc::Global;

/// The tree of the root of the snapshot of this name, or why there is none.
pub(crate) fn root(
    alloc: Global,
    repo: &Repo,
    catalog: &Catalog,
    snapshot: Id,
) -> Result<Id, RestoreError>
    requires { catalog.now ≡ repo.now }
    ensures { Answers (Reach Memory) (λ tree. tree) (root_due repo.now snapshot) result }
{
    match root_in(catalog, snapshot) {
        Some(tree) => Ok(tree),
        None => Err(why_unread(alloc, repo, snapshot)),
    }
}

/// The tree of the snapshot's root, if the snapshot can be read.
fn root_in(catalog: &Catalog, snapshot: Id) -> Option<Id>
    ensures { result ≡ option_map (λ snap. snap.tree) (snap_in catalog.now snapshot) }
{
    let snap = catalog.snaps().get(&snapshot)?;
    Some(snap.tree)
}

/// Why the snapshot can't be read.
fn why_unread(alloc: Global, repo: &Repo, snapshot: Id) -> RestoreError
    requires { snap_in repo.now snapshot ≡ None }
    ensures { result ≢ Reach Memory → root_due repo.now snapshot ≡ Err result }
{
    let name = FileName::snapshot(snapshot);
    let Some(bytes) = repo.get(name) else {
        return RestoreError::NoSnapshot;
    };
    match read_snap(alloc, bytes.as_slice()) {
        Ok(_) => unreachable!(),
        Err(refusal) => {
            if is_memory(refusal) {
                return RestoreError::Reach(ReachError::Memory);
            }
            let refusal = FileError::Snap(refusal);
            RestoreError::Unread(Unread { name, refusal })
        }
    }
}

fn is_memory(refusal: SnapError) -> bool
    ensures { IsTrue result ↔ (refusal ≡ Doc the_doc_error.Memory) }
{
    matches!(refusal, SnapError::Doc(DocError::Memory))
}
