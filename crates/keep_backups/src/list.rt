ghost use Rattle.std.specs.Prelude.{◌≡◌, ◌≢◌, ℕ, List, false, Err, IfErr, IfOk, None, OnOk, map};
ghost use Rattle.keep_backups.specs.Known as spec;
ghost use Rattle.keep_backups.specs.Known.{known_at, known_behind, known_with};
ghost use Rattle.keep_catalog.specs.declared.reach_error.ReachError.TheVariants.{Memory};
ghost use Rattle.keep_nodes.specs.Entries.{entry_view};
ghost use Rattle.keep_nodes.specs.Listed.{nodes_due};
ghost use Rattle.keep_repo.specs.Repository.{is_filled};
ghost use Rattle.keep_read.specs.Restored.{snapshot_facet};
ghost use Rattle.keep_read.specs.declared.restore_error.RestoreError.TheVariants.{NoSnapshot, Reach};

use crate::known_file::known_file;
use crate::source_paths::source_path;
use keep_names::Id;
use keep_nodes::{PathNode, nodes_of};
use keep_read::RestoreError;
use keep_sources::Known;
use keep_view::View;
use std::alloc::{AllocError, Global};
use std::collections::HashMap;

/// The files of a snapshot by their paths below the root of a source, with names as they were before they were quoted.
/// A file that says no size or no time, or whose path can't be a source's, isn't among them.
pub fn known_of(
    alloc: Global,
    view: &View,
    snapshot: Id,
) -> Result<HashMap<String, Known>, RestoreError>
    ensures none { is_filled view.now.repo (snapshot_facet snapshot) ≡ false → result ≡ Err NoSnapshot }
    ensures known { IfOk result (λ known. (path : List ℕ)
        → known_at known path ≡ spec.known_of view.now.repo snapshot path) }
    ensures refused { IfErr result (λ why. why ≢ Reach Memory → nodes_due view.now.repo snapshot ≡ Err why) }
{
    let entries = nodes_of(alloc, view, snapshot)?;
    let known = known_in(alloc, &entries)?;
    Ok(known)
}

/// The files of these nodes by their paths, as far as enough is known of them.
fn known_in(alloc: Global, entries: &[PathNode]) -> Result<HashMap<String, Known>, AllocError>
    ensures { IfOk result (λ known. (path : List ℕ)
        → known_at known path ≡ known_behind None path (map entry_view entries.now)) }
{
    let mut all = HashMap::new(alloc);
    for entry in entries {
        add(alloc, entry, &mut all)?;
    }
    Ok(all)
}

/// Adds a node, if it is a file of which enough is known.
fn add(alloc: Global, entry: &PathNode, all: &mut HashMap<String, Known>) -> Result<(), AllocError>
    ensures { OnOk result ((path : List ℕ)
        → known_at all.new path ≡ known_with (known_at all.old path) path (entry_view entry.now)) }
{
    let Some(known) = known_file(&entry.node)? else {
        return Ok(());
    };
    let Some(path) = source_path(alloc, entry.path.as_str())? else {
        return Ok(());
    };
    all.insert(path, known)?;
    Ok(())
}
