ghost use Rattle.std.specs.Prelude.{◌≡◌, ℕ, List, [], IfOk, map, string_bytes, unwrap_or};
ghost use Rattle.std.specs.Cmp.Lexicographic.{pointwise};
ghost use Rattle.std.specs.Str.{bytes_eq};
ghost use Rattle.keep_acts.specs.Shown.{shown_by};
ghost use Rattle.keep_backing.specs.Unchanged as spec;
ghost use Rattle.keep_backing.specs.Unchanged.{AreUnchanged};
ghost use Rattle.keep_backup.specs.Backup.{facts_view};
ghost use Rattle.keep_backups.specs.Known.{known_at, known_of as known_by_snapshot};
ghost use Rattle.keep_book.specs.Armed.{ledger_of};
ghost use Rattle.keep_named.specs.Rows.{row_view};
ghost use Rattle.keep_snap.specs.Snap.{snap_view};

use keep_backup::BackupFacts;
use keep_backups::known_of;
use keep_book::Book;
use keep_catalog::ReachError;
use keep_named::{ListedSnapshot, snapshots_of};
use keep_names::Id;
use keep_read::RestoreError;
use keep_run::{Failure, Run};
use keep_shelf::Shelf;
use keep_snap::Snap;
use keep_sources::Known;
use std::collections::HashMap;

/// The files of the last snapshot of this host and just these paths, which needn't be read again where they are as they
/// were. A snapshot that can't be listed tells of none.
pub(crate) fn unchanged<S: Shelf>(
    run: &Run<'_>,
    book: &Book<S>,
    facts: &BackupFacts,
) -> Result<HashMap<String, Known>, Failure>
    ensures { IfOk result (λ known. ∥ AreUnchanged (ledger_of book.now) (facts_view facts.now) (known_at known) ∥₁) }
{
    let view = book.ledger().view();
    let catalog = view.read_past(run.alloc)?;
    let rows = snapshots_of(run.alloc, &catalog, book.ledger().history())?;
    match last_of(rows.as_slice(), facts) {
        Some(snapshot) => files_of(run, book, snapshot),
        None => Ok(HashMap::new(run.alloc)),
    }
}

/// The files of a snapshot. One that can't be listed has none.
fn files_of<S: Shelf>(
    run: &Run<'_>,
    book: &Book<S>,
    snapshot: Id,
) -> Result<HashMap<String, Known>, Failure>
    ensures { IfOk result (λ known. (path : List ℕ)
        → known_at known path ≡ known_by_snapshot (shown_by (ledger_of book.now)).repo snapshot path) }
{
    let view = book.ledger().view();
    match known_of(run.alloc, &view, snapshot) {
        Ok(known) => Ok(known),
        Err(RestoreError::Reach(ReachError::Memory)) => Err(Failure::Memory),
        Err(_) => Ok(HashMap::new(run.alloc)),
    }
}

/// The last of the rows whose snapshot is of this host and these paths.
fn last_of(rows: &[ListedSnapshot<'_>], facts: &BackupFacts) -> Option<Id>
    ensures { result ≡ spec.last_of (facts_view facts.now) (map row_view rows.now) }
{
    let mut last = None;
    for row in rows {
        if is_of(row.snap, facts) {
            last = Some(row.id);
        }
    }
    last
}

/// Whether the snapshot is of this host and these paths, in their order.
fn is_of(snap: &Snap, facts: &BackupFacts) -> bool
    ensures { result ≡ spec.is_of (facts_view facts.now) (snap_view snap.now) }
{
    host_of(snap) == facts.host.as_str() && are_same(&snap.paths, &facts.paths)
}

/// The host that a snapshot says, or the empty one.
fn host_of(snap: &Snap) -> &str
    ensures { result.now ≡ unwrap_or (snap_view snap.entry.now).hostname [] }
{
    match &snap.hostname {
        Some(host) => host.as_str(),
        None => "",
    }
}

/// Whether both are the same texts, in their order.
fn are_same(paths: &Vec<String>, others: &Vec<String>) -> bool
    ensures { result ≡ pointwise bytes_eq (map string_bytes paths.now.items) (map string_bytes others.now.items) }
{
    paths == others
}
