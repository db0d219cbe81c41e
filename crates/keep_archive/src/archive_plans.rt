ghost use Rattle.std.specs.Prelude.{◌≡◌, map, string_bytes};
ghost use Rattle.keep_docs.specs.Doc.{Answers};
ghost use Rattle.keep_plan.specs.declared.plan_error.PlanError.TheVariants as the_error;
ghost use Rattle.keep_backup.specs.Backup.{facts_view};
ghost use Rattle.keep_archive.specs.Archive.{going_view};
ghost use Rattle.keep_archive.specs.Plans.{part_of};
ghost use Rattle.keep_archive.specs.declared.not_planned.NotPlanned.TheVariants.{Unplanned};
ghost use Rattle.keep_archive.specs.Plans as spec;

use crate::archive::Archive;
use crate::going::Going;
use crate::not_planned::NotPlanned;
use crate::part_storing::{store_held, store_last};
use keep_backup::{BackupFacts, change_with, has_bad_time, snapshot_file};
use keep_catalog::Hashing;
use keep_change::{Change, Planned};
use keep_names::BlobId;
use keep_plan::{PlanError, Stored};
use keep_repo::Facet;
use keep_view::View;
use std::alloc::Global;

impl Archive {
    ghost use Rattle.std.specs.Prelude.{[], None, IfOk, IfSome, option_map};
    ghost use Rattle.keep_view.specs.Planned.{IsPlannedOn};
    ghost use Rattle.keep_archive.specs.Archive.{archive_view};
    ghost use Rattle.keep_archive.specs.Plans.{last_due, of_open, part_due};

    /// The blobs that have to have places when the backup is planned; none where it is shut.
    pub fn named(&self) -> &[BlobId]
        ensures open { IfSome (archive_view self.now) (λ a. result.now ≡ a.blobs.named) }
        ensures shut { archive_view self.now ≡ None → result.now ≡ [] }
    {
        match &self.going {
            Some(going) => &going.blobs.named,
            None => &[],
        }
    }

    /// The change that stores what is held, as far as it has no place: it adds packs and their index alone. Packs are
    /// hashed by this. None where nothing is to be stored. `Unread` where a file of the repository can't be read, and
    /// then `Differs` of the first of the packs and the index that is there with other bytes.
    pub fn plan_part<H: Hashing>(
        &self,
        alloc: Global,
        view: &View,
        hashing: &mut H,
    ) -> Result<Option<Planned>, NotPlanned>
        ensures change { Answers (Unplanned the_error.Memory) (option_map (λ planned. planned.change))
            (of_open (part_due view.now.repo) (archive_view self.now)) result }
        ensures planned { IfOk result (λ part. IfSome part (IsPlannedOn view.now)) }
    {
        let Some(going) = &self.going else {
            return Err(NotPlanned::Unplanned(PlanError::Memory));
        };
        let Some(change) = part(alloc, view, going, hashing)? else {
            return Ok(None);
        };
        Ok(Some(Planned {
            change,
            seen: view.length(),
        }))
    }

    /// The last change: it stores what is left, rests on what was stored and on the pieces of files that weren't read,
    /// and adds the snapshot, with these tags.
    ///
    /// The refusals in their order: `BadPath` where a folder below the root is open, `BadTime`, `Unread`, `Full`,
    /// `MissingBlob` of the first blob that was stored or named and has no place any more, `SnapshotThere`, `Differs` of
    /// the first of the packs and the index that is there with other bytes.
    pub fn plan_backup<H: Hashing>(
        &self,
        alloc: Global,
        view: &View,
        facts: &BackupFacts,
        tags: &[String],
        hashing: &mut H,
    ) -> Result<Planned, NotPlanned>
        ensures change { Answers (Unplanned the_error.Memory) (λ planned. planned.change)
            (of_open (last_due view.now.repo (facts_view facts.now) (map string_bytes tags.now))
            (archive_view self.now)) result }
        ensures planned { IfOk result (IsPlannedOn view.now) }
    {
        let Some(going) = &self.going else {
            return Err(NotPlanned::Unplanned(PlanError::Memory));
        };
        let change = last(alloc, view, going, facts, tags, hashing)?;
        Ok(Planned {
            change,
            seen: view.length(),
        })
    }
}

/// The change of a part.
fn part<H: Hashing>(
    alloc: Global,
    view: &View,
    going: &Going,
    hashing: &mut H,
) -> Result<Option<Change>, NotPlanned>
    ensures { Answers (Unplanned the_error.Memory) (λ part. part) (spec.part_due view.now.repo (going_view going.now)) result }
{
    let stored = store_held(alloc, view, &going.blobs.held, hashing)?;
    if let Some(file) = stored.differing {
        return Err(NotPlanned::Differs(file));
    }
    if is_idle(&stored) {
        return Ok(None);
    }
    Ok(Some(part_with(alloc, stored)))
}

/// The last change.
fn last<H: Hashing>(
    alloc: Global,
    view: &View,
    going: &Going,
    facts: &BackupFacts,
    tags: &[String],
    hashing: &mut H,
) -> Result<Change, NotPlanned>
    ensures { Answers (Unplanned the_error.Memory) (λ change. change) (spec.last_due view.now.repo
        (facts_view facts.now) (map string_bytes tags.now) (going_view going.now)) result }
{
    if !going.place.around.is_empty() {
        return Err(NotPlanned::Unplanned(PlanError::BadPath));
    }
    if has_bad_time(facts) {
        return Err(NotPlanned::Unplanned(PlanError::BadTime));
    }
    let (tree, stored) = store_last(alloc, view, going, hashing)?;
    let snapshot = snapshot_file(alloc, facts, tags, tree)?;
    if view.repo().facet_filled(Facet::File(snapshot.name())) {
        return Err(NotPlanned::Unplanned(PlanError::SnapshotThere));
    }
    if let Some(file) = stored.differing {
        return Err(NotPlanned::Differs(file));
    }
    let change = change_with(alloc, stored, snapshot)?;
    Ok(change)
}

/// Whether nothing would be written.
fn is_idle(stored: &Stored) -> bool
    ensures { result ≡ spec.is_idle stored.now }
{
    let no_adds = stored.adds.as_slice().is_empty();
    let no_clears = stored.clears.as_slice().is_empty();
    no_adds & no_clears
}

/// The change that stores this.
fn part_with(alloc: Global, stored: Stored) -> Change
    ensures { result ≡ part_of stored }
{
    let mut change = Change::new(alloc);
    change.adds = stored.adds;
    change.clears = stored.clears;
    change.present = stored.present;
    change.unmarked = stored.unmarked;
    change
}
