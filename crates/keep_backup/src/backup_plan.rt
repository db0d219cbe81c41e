ghost use Rattle.std.specs.Prelude.{◌≡◌, true, Err, IfOk, is_none, length, map};
ghost use Rattle.keep_docs.specs.Doc.{Answers};
ghost use Rattle.keep_snap.specs.Time.{time_in};
ghost use Rattle.keep_view.specs.Planned.{IsPlannedOn};
ghost use Rattle.keep_backup.specs.Backup.{backup_change, facts_view, stored_files_of};
ghost use Rattle.keep_backup.specs.Backup as spec;
ghost use Rattle.keep_backup.specs.Files.{file_view, given_view, paths_seen};
ghost use Rattle.keep_backup.specs.Paths.{AreNamed, StandInOrder};
ghost use Rattle.keep_plan.specs.declared.plan_error.PlanError.TheVariants as the_error;

use crate::path_walk::walk;
use crate::paths::{PathFile, files_in_order};
use crate::snapshot::{BackupFacts, snapshot_file};
use keep_build::{Cut, Storing};
use keep_catalog::OneByOne;
use keep_change::{Change, Listed, Planned, StoredFile};
use keep_names::Id;
use keep_plan::{PlanError, Stored};
use keep_repo::Facet;
use keep_snap::parse_time;
use keep_view::View;
use std::alloc::{AllocError, Global};

/// The change that backs up these files, given by the texts of their absolute paths and their bytes. What the repository
/// has is reused.
///
/// The refusals in their order: `BadPath`, `SamePathTwice`, `BadTime`, `Unread`, `TooDeep`, `Full`,
/// `SnapshotThere`. Where there are no files, `BadTime` is found before memory is taken.
#[tactic(auto, using(crate::proofs::Planning::late_alone))]
pub fn plan_backup(
    alloc: Global,
    view: &View,
    files: &[(String, Vec<u8>)],
    facts: &BackupFacts,
    cut: Cut,
) -> Result<Planned, PlanError>
    ensures change { Answers the_error.Memory (λ planned. planned.change)
        (backup_change view.now.repo (facts_view facts.now) cut.bytes (map given_view files.now)) result }
    ensures planned { IfOk result (IsPlannedOn view.now) }
    ensures bad_time { length files.now ≡ 0 → is_none (time_in (facts_view facts.now).time) ≡ true
        → result ≡ Err the_error.BadTime }
{
    if files.is_empty() {
        if has_bad_time(facts) {
            return Err(PlanError::BadTime);
        }
    }
    plan_files(alloc, view, files, facts, cut)
}

/// The change that backs up these files, where memory may run out before the time is looked at.
fn plan_files(
    alloc: Global,
    view: &View,
    files: &[(String, Vec<u8>)],
    facts: &BackupFacts,
    cut: Cut,
) -> Result<Planned, PlanError>
    ensures change { Answers the_error.Memory (λ planned. planned.change)
        (backup_change view.now.repo (facts_view facts.now) cut.bytes (map given_view files.now)) result }
    ensures planned { IfOk result (IsPlannedOn view.now) }
{
    let files = files_in_order(alloc, files)?;
    if has_bad_time(facts) {
        return Err(PlanError::BadTime);
    }
    let (tree, stored) = store_files(alloc, view, &files, cut)?;
    let snapshot = snapshot_file(alloc, facts, &[], tree)?;
    if view.repo().facet_filled(Facet::File(snapshot.name())) {
        return Err(PlanError::SnapshotThere);
    }
    let change = change_with(alloc, stored, snapshot)?;
    Ok(Planned {
        change,
        seen: view.length(),
    })
}

/// Whether no snapshot can have the time.
pub fn has_bad_time(facts: &BackupFacts) -> bool
    ensures { result ≡ is_none (time_in (facts_view facts.now).time) }
{
    parse_time(facts.time.as_str()).is_none()
}

/// The id of the root's tree, and what is stored of the files.
fn store_files<'a>(
    alloc: Global,
    view: &View<'a>,
    files: &[PathFile<'a>],
    cut: Cut,
) -> Result<(Id, Stored), PlanError>
    requires in_order { StandInOrder (paths_seen 0 files.now) }
    requires named { AreNamed (paths_seen 0 files.now) }
    ensures { Answers the_error.Memory (λ made. made)
        (stored_files_of view.now.repo cut.bytes (map file_view files.now)) result }
{
    let catalog = view.catalog(alloc)?;
    let mut storing = Storing::new(alloc, catalog);
    let tree = walk(alloc, files, cut, &mut storing)?;
    let stored = storing.finish(alloc, view.repo(), &mut OneByOne)?;
    Ok((tree, stored))
}

/// The change that stores this and adds the snapshot.
pub fn change_with(
    alloc: Global,
    stored: Stored,
    snapshot: StoredFile,
) -> Result<Change, AllocError>
    ensures { IfOk result (λ change. change ≡ spec.change_of stored snapshot) }
{
    let mut adds = stored.adds.into_vec();
    adds.push(snapshot)?;
    let mut change = Change::new(alloc);
    change.adds = Listed::from_vec(adds);
    change.clears = stored.clears;
    change.present = stored.present;
    change.unmarked = stored.unmarked;
    Ok(change)
}
