ghost use Rattle.std.specs.Prelude.{◌≡◌, ◌++◌, IfOk, OnOk, map};
ghost use Rattle.keep_nodes.specs.Choosing.{lent_view};
ghost use Rattle.keep_nodes.specs.Entries.{entry_view};
ghost use Rattle.keep_patterns.specs.Parsing.{pattern_view};
ghost use Rattle.keep_looks.specs.Found.{AreFound, AreRowsFound, path_data, path_of, paths_in};

use crate::found_row::FoundRow;
use crate::listed_nodes::nodes_or_none;
use crate::unlisted::Unlisted;
use keep_journal::History;
use keep_named::{ListedSnapshot, snapshots_of};
use keep_names::Id;
use keep_nodes::{PathNode, matched};
use keep_patterns::Pattern;
use keep_view::View;
use std::alloc::{AllocError, Global};
use std::slice;

/// What was found, and the snapshots that can't be listed: nothing is found in them.
#[derive(Drop)]
pub struct FoundPaths {
    pub rows: Vec<FoundRow>,
    pub unlisted: Vec<Unlisted>,
}

/// The paths that the pattern matches in each snapshot that can be read: those of the earliest first, and those of one
/// snapshot in its order.
pub fn found_rows(
    alloc: Global,
    view: &View,
    history: &History,
    pattern: &Pattern,
) -> Result<FoundPaths, AllocError>
    ensures { IfOk result (λ found. AreFound history.now.journal view.now.repo (pattern_view pattern.now) found) }
{
    let catalog = view.read_past(alloc)?;
    let rows = snapshots_of(alloc, &catalog, history)?;
    found_in(alloc, view, &rows, pattern)
}

fn found_in(
    alloc: Global,
    view: &View,
    snapshots: &[ListedSnapshot<'_>],
    pattern: &Pattern,
) -> Result<FoundPaths, AllocError>
    ensures { IfOk result (λ found. AreRowsFound view.now.repo (pattern_view pattern.now) snapshots.now found) }
{
    let mut rows = Vec::new(alloc);
    let mut unlisted = Vec::new(alloc);
    for row in snapshots {
        let entries = nodes_or_none(alloc, view, row.id, &mut unlisted)?;
        add_matched(alloc, row.id, &entries, pattern, &mut rows)?;
    }
    Ok(FoundPaths { rows, unlisted })
}

/// Adds the paths of those of a snapshot's nodes that the pattern matches.
#[tactic(auto, unfolding(crate::specs::Found::paths_in))]
fn add_matched(
    alloc: Global,
    snapshot: Id,
    entries: &[PathNode],
    pattern: &Pattern,
    rows: &mut Vec<FoundRow>,
) -> Result<(), AllocError>
    ensures { OnOk result (map path_data rows.new.items ≡ map path_data rows.old.items
        ++ paths_in (pattern_view pattern.now) snapshot (map entry_view entries.now)) }
{
    let found = matched(alloc, entries, slice::from_ref(pattern))?;
    add_paths(snapshot, &found, rows)
}

fn add_paths(snapshot: Id, found: &[&PathNode], rows: &mut Vec<FoundRow>) -> Result<(), AllocError>
    ensures { OnOk result (map path_data rows.new.items ≡ map path_data rows.old.items
        ++ map (path_of snapshot) (map lent_view found.now)) }
{
    for entry in found {
        let path = entry.path.clone()?;
        rows.push(FoundRow { snapshot, path })?;
    }
    Ok(())
}
