ghost use Rattle.std.specs.Prelude.{◌≡◌, false, Err, map};
ghost use Rattle.keep_docs.specs.Doc.{Answers};
ghost use Rattle.keep_repo.specs.Repository.{is_filled};
ghost use Rattle.keep_catalog.specs.declared.reach_error.ReachError.TheVariants.{Memory};
ghost use Rattle.keep_read.specs.Restored.{snapshot_facet};
ghost use Rattle.keep_read.specs.declared.restore_error.RestoreError.TheVariants.{NoSnapshot, Reach};
ghost use Rattle.keep_nodes.specs.Entries.{entry_view};
ghost use Rattle.keep_nodes.specs.Listed.{nodes_due, whole_nodes_due};

use crate::entry_walk::entries_below;
use crate::path_node::PathNode;
use crate::root::root;
use keep_names::{FileName, Id};
use keep_reach::reach;
use keep_read::RestoreError;
use keep_repo::Facet;
use keep_view::View;
use std::alloc::Global;

/// The nodes of the snapshot of this name, by path: depth first, a folder before what is in it, in the order of the
/// trees. Other files that can't be read have and list nothing.
///
/// Trees alone are read and hashed. So a snapshot that lacks pieces of files has its nodes all the same.
pub fn nodes_of(alloc: Global, view: &View, snapshot: Id) -> Result<Vec<PathNode>, RestoreError>
    ensures none { is_filled view.now.repo (snapshot_facet snapshot) ≡ false → result ≡ Err NoSnapshot }
    ensures nodes { Answers (Reach Memory) (λ entries. map entry_view entries.items)
        (nodes_due view.now.repo snapshot) result }
{
    let repo = view.repo();
    if !repo.facet_filled(Facet::File(FileName::snapshot(snapshot))) {
        return Err(RestoreError::NoSnapshot);
    }
    let catalog = view.read_past(alloc)?;
    let tree = root(alloc, repo, &catalog, snapshot)?;
    let entries = entries_below(alloc, &catalog, tree)?;
    Ok(entries)
}

/// The nodes that `nodes_of` gives, if the snapshot can be restored whole: each piece of its files is looked for and
/// hashed too, and what is missing refuses it, as it refuses a restore.
pub fn whole_nodes_of(
    alloc: Global,
    view: &View,
    snapshot: Id,
) -> Result<Vec<PathNode>, RestoreError>
    ensures none { is_filled view.now.repo (snapshot_facet snapshot) ≡ false → result ≡ Err NoSnapshot }
    ensures nodes { Answers (Reach Memory) (λ entries. map entry_view entries.items)
        (whole_nodes_due view.now.repo snapshot) result }
{
    let repo = view.repo();
    if !repo.facet_filled(Facet::File(FileName::snapshot(snapshot))) {
        return Err(RestoreError::NoSnapshot);
    }
    let catalog = view.read_past(alloc)?;
    let tree = root(alloc, repo, &catalog, snapshot)?;
    let _reached = reach(alloc, &catalog, snapshot)?;
    let entries = entries_below(alloc, &catalog, tree)?;
    Ok(entries)
}
