ghost use Rattle.std.specs.Prelude.{◌≡◌, ◌∷◌, [], ◌++◌, IfOk, IsPermutation, OnOk, map};
ghost use Rattle.std.specs.List.Sorted.{IsSortedByKey};
ghost use Rattle.keep_snap.specs.Snap.{snap_view};
ghost use Rattle.keep_named.specs.Rows.{moment_cmp, named_view, row_view, rows_in, rows_of};

use crate::adding::adding;
use crate::listed_snapshot::ListedSnapshot;
use keep_catalog::Catalog;
use keep_journal::History;
use keep_names::Id;
use keep_snap::{Snap, parse_time};
use std::alloc::{AllocError, Global};
use std::cmp::Ordering;
use std::collections::BTreeMap;

/// The snapshots that can be read, by the instants of their times, and those of one instant by name: the last one is
/// the latest. Each change that is in force and isn't final is looked at for each of them.
pub fn snapshots_of<'a>(
    alloc: Global,
    catalog: &'a Catalog,
    history: &History,
) -> Result<Vec<ListedSnapshot<'a>>, AllocError>
    ensures sorted { IfOk result (λ rows. IsSortedByKey row_view moment_cmp rows.items) }
    ensures same { IfOk result (λ rows. IsPermutation (rows_in history.now.journal catalog.entry.now)
        (map row_view rows.items)) }
{
    let mut rows = rows_by_name(alloc, catalog.snaps(), history)?;
    rows.sort_by(|left, right| compare(left, right))?;
    Ok(rows)
}

/// The rows of snapshots, by name.
fn rows_by_name<'a>(
    alloc: Global,
    snaps: &'a BTreeMap<Id, Snap>,
    history: &History,
) -> Result<Vec<ListedSnapshot<'a>>, AllocError>
    ensures { IfOk result (λ rows. map row_view rows.items
        ≡ rows_of history.now.journal (map named_view snaps.entry.now.entries)) }
{
    let mut rows = Vec::new(alloc);
    for (name, snap) in snaps {
        add_row(*name, snap, history, &mut rows)?;
    }
    Ok(rows)
}

/// Adds the row of a snapshot. One that was read has a time.
fn add_row<'a>(
    id: Id,
    snap: &'a Snap,
    history: &History,
    rows: &mut Vec<ListedSnapshot<'a>>,
) -> Result<(), AllocError>
    ensures { OnOk result (map row_view rows.new.items ≡ map row_view rows.old.items
        ++ rows_of history.now.journal ((id, snap_view snap.entry.now) ∷ [])) }
{
    if let Some(time) = parse_time(snap.time.as_str()) {
        rows.push(ListedSnapshot {
            id,
            instant: time.instant,
            snap,
            change: adding(history, id),
        })?;
    }
    Ok(())
}

/// The earlier first, and of those of one instant the lesser name.
fn compare(left: &ListedSnapshot, right: &ListedSnapshot) -> Ordering
    ensures { result ≡ moment_cmp (row_view left.now) (row_view right.now) }
{
    left.instant
        .cmp(&right.instant)
        .then(left.id.cmp(&right.id))
}
