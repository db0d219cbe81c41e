ghost use Rattle.std.specs.Prelude.{◌≡◌, ◌≢◌, ◌↔◌, false, None, Err, IsTrue, option_map};
ghost use Rattle.keep_docs.specs.Doc.{Answers};
ghost use Rattle.keep_docs.specs.declared.doc.DocError.TheVariants as the_doc_error;
ghost use Rattle.keep_repo.specs.Repository.{is_filled};
ghost use Rattle.keep_snap.specs.declared.snap.SnapError.TheVariants.{Doc};
ghost use Rattle.keep_catalog.specs.Files.{snap_in};
ghost use Rattle.keep_catalog.specs.declared.reach_error.ReachError.TheVariants.{Memory};
ghost use Rattle.keep_read.specs.Restored.{restored, restored_view, snapshot_facet};
ghost use Rattle.keep_read.specs.declared.restore_error.RestoreError.TheVariants.{NoSnapshot, Reach};

use crate::content_walk::contents_of;
use crate::restore_error::RestoreError;
use crate::restored::{RestoredFiles, restored_of};
use keep_catalog::{Catalog, FileError, ReachError, Unread};
use keep_docs::DocError;
use keep_names::{FileName, Id};
use keep_reach::reach;
use keep_repo::{Facet, Repo};
use keep_snap::{SnapError, read_snap};
use keep_view::View;
use std::alloc::Global;

/// The files of the snapshot of this name, in the repository of the view. Other files that can't be read have and list
/// nothing.
///
/// The snapshot is read once, and each blob that is reached is hashed once. A tree is read once for each path
/// that leads to it, as long as a file or a skipped node is below it.
pub fn restore(alloc: Global, view: &View, snapshot: Id) -> Result<RestoredFiles, RestoreError>
    ensures none { is_filled view.now.repo (snapshot_facet snapshot) ≡ false → result ≡ Err NoSnapshot }
    ensures restored { Answers (Reach Memory) restored_view (restored view.now.repo snapshot) result }
{
    let repo = view.repo();
    if !repo.facet_filled(Facet::File(FileName::snapshot(snapshot))) {
        return Err(RestoreError::NoSnapshot);
    }
    let catalog = view.read_past(alloc)?;
    let Some(tree) = root_in(&catalog, snapshot) else {
        return Err(why_unread(alloc, repo, snapshot));
    };
    let reached = reach(alloc, &catalog, snapshot)?;
    let contents = contents_of(alloc, &catalog, &reached, tree)?;
    let restored = restored_of(alloc, contents)?;
    Ok(restored)
}

/// The tree of the snapshot's root, if the snapshot can be read.
fn root_in(catalog: &Catalog, snapshot: Id) -> Option<Id>
    ensures { result ≡ option_map (λ snap. snap.tree) (snap_in catalog.now snapshot) }
{
    let snap = catalog.snaps().get(&snapshot)?;
    Some(snap.tree)
}

/// Why the snapshot can't be read.
fn why_unread(alloc: Global, repo: &Repo, snapshot: Id) -> RestoreError
    requires { snap_in repo.now snapshot ≡ None }
    ensures { result ≢ Reach Memory → restored repo.now snapshot ≡ Err result }
{
    let name = FileName::snapshot(snapshot);
    let Some(bytes) = repo.get(name) else {
        return RestoreError::NoSnapshot;
    };
    match read_snap(alloc, bytes.as_slice()) {
        Ok(_) => unreachable!(),
        Err(refusal) => {
            if is_memory(refusal) {
                return RestoreError::Reach(ReachError::Memory);
            }
            let refusal = FileError::Snap(refusal);
            RestoreError::Unread(Unread { name, refusal })
        }
    }
}

fn is_memory(refusal: SnapError) -> bool
    ensures { IsTrue result ↔ (refusal ≡ Doc the_doc_error.Memory) }
{
    matches!(refusal, SnapError::Doc(DocError::Memory))
}
