ghost use Rattle.std.specs.Prelude.{◌≡◌, ◌≢◌, ◌&&◌, true, not, None, Some, IfErr, IfOk, map};
ghost use Rattle.std.specs.BTreeMap as tree;
ghost use Rattle.std.specs.BTreeSet as bag;
ghost use Rattle.std.specs.BTreeSet.{contains};
ghost use Rattle.keep_docs.specs.Doc.{Answers};
ghost use Rattle.keep_names.specs.FileName.{named};
ghost use Rattle.keep_names.specs.Orders.{id_cmp};
ghost use Rattle.keep_names.specs.declared.file_name.Kind.TheVariants as the_kind;
ghost use Rattle.keep_repo.specs.Repository.{Repository};
ghost use Rattle.keep_catalog.specs.Places.{chosen_listing, is_unmarked};
ghost use Rattle.keep_reach.specs.Used.{used_in};
ghost use Rattle.keep_reach.specs.Walk.{AreChosen};
ghost use Rattle.keep_view.specs.Planned.{IsPlannedOn};
ghost use Rattle.keep_plan.specs.Reuse.{RestOn};
ghost use Rattle.keep_plan.specs.Storing.{is_there};
ghost use Rattle.keep_plan.specs.declared.plan_error.PlanError.TheVariants as the_error;
ghost use Rattle.keep_upkeep.specs.Mark as spec;
ghost use Rattle.keep_upkeep.specs.Mark.{gone_snapshots, mark_at, mark_change, marking_of, not_there};
ghost use Rattle.keep_upkeep.specs.Mark.{unneeded_but, unneeded_packs, why_unknown};

use crate::upkeep_laws::a_planned_mark_can_be_made;
use keep_change::{Change, Listed, PackMark, Planned};
use keep_names::{FileName, Id, Kind};
use keep_plan::{PlanError, Reuses, Stored, store_built};
use keep_reach::{Reached, used};
use keep_repo::{Facet, Mark, Repo};
use keep_view::View;
use std::alloc::{AllocError, Global};
use std::collections::BTreeSet;

/// The change that marks, at this moment, the packs that no snapshot needs: those that are there, have no mark, and
/// hold no chosen place of a blob that a snapshot reaches. It rests on what these blobs are read from, and on the
/// absence of each known snapshot that isn't there.
///
/// The refusals in their order: `Unread`, `Reach` of the first present snapshot by name that has one, `NothingToDo`.
pub fn plan_mark(alloc: Global, view: &View, moment: i64) -> Result<Planned, PlanError>
    ensures change { Answers the_error.Memory (λ planned. planned.change)
        (mark_change view.now.repo view.now.known moment) result }
    ensures planned { IfOk result (IsPlannedOn view.now) }
{
    a_planned_mark_can_be_made();
    let reached = reached(alloc, view)?;
    let reuses = uses_found(alloc, &reached)?;
    let change = mark_others(alloc, view, moment, reuses)?;
    Ok(Planned {
        change,
        seen: view.length(),
    })
}

/// All blobs that snapshots reach, each where it is chosen.
fn reached(alloc: Global, view: &View) -> Result<Reached, PlanError>
    ensures listed { IfOk result (λ reached. tree.keys reached ≡ used_in view.now.repo) }
    ensures places { IfOk result (AreChosen (chosen_listing view.now.repo)) }
    ensures known { IfOk result (λ _. why_unknown view.now.repo ≡ None) }
    ensures refused { IfErr result (λ error. error ≢ the_error.Memory → why_unknown view.now.repo ≡ Some error) }
{
    let catalog = view.catalog(alloc)?;
    let reached = used(alloc, &catalog)?;
    Ok(reached)
}

/// What the uses of these blobs rest on, each where a walk found it.
fn uses_found(alloc: Global, reached: &Reached) -> Result<Reuses, AllocError>
    ensures { IfOk result (λ reuses. (r : Repository) → AreChosen (chosen_listing r) reached.now
        → RestOn r (tree.keys reached.now) reuses) }
{
    let mut reuses = Reuses::new(alloc);
    for (_, found) in reached.iter() {
        reuses.rest_on(found.spot.pack, found.index)?;
    }
    Ok(reuses)
}

/// The change that marks the packs in which nothing is used.
fn mark_others(alloc: Global, view: &View, moment: i64, reuses: Reuses) -> Result<Change, PlanError>
    requires { RestOn view.now.repo (used_in view.now.repo) reuses }
    ensures { Answers the_error.Memory (λ change. change)
        (marking_of view.now.repo view.now.known moment (unneeded_packs view.now.repo)) result }
{
    let packs = unneeded(alloc, view.repo(), &reuses)?;
    if packs.is_empty() {
        return Err(PlanError::NothingToDo);
    }
    let marks = marks_at(alloc, packs, moment)?;
    let needed = store_built(alloc, view.repo(), Vec::new(alloc), reuses)?;
    let gone = gone(alloc, view)?;
    let names = snapshot_names(alloc, gone)?;
    Ok(marking(alloc, marks, needed, names))
}

/// The packs that are there, have no mark, and aren't used.
fn unneeded(alloc: Global, repo: &Repo, reuses: &Reuses) -> Result<Vec<Id>, AllocError>
    ensures { IfOk result (λ packs. packs.items ≡ unneeded_but repo.now (contains id_cmp reuses.now.unmarked)) }
{
    let packs = repo.ids(Kind::Pack)?;
    packs
        .into_iter()
        .filter(|pack| is_unneeded(repo, reuses, *pack))
        .collect(alloc)
}

/// Whether the pack has no mark and isn't used.
fn is_unneeded(repo: &Repo, reuses: &Reuses, pack: Id) -> bool
    ensures { result ≡ (is_unmarked repo.now pack && not (contains id_cmp reuses.now.unmarked pack)) }
{
    !repo.is_marked(pack) && !reuses.unmarked.contains(&pack)
}

/// The marks of this moment on the packs.
fn marks_at(alloc: Global, packs: Vec<Id>, moment: i64) -> Result<Vec<PackMark>, AllocError>
    ensures { IfOk result (λ marks. marks.items ≡ map (mark_at moment) packs.items) }
{
    packs
        .into_iter()
        .map(|pack| PackMark {
            pack,
            mark: Mark { moment },
        })
        .collect(alloc)
}

/// The known snapshots that aren't there.
fn gone(alloc: Global, view: &View) -> Result<Vec<Id>, AllocError>
    ensures { IfOk result (λ gone. gone.items ≡ gone_snapshots view.now.repo view.now.known) }
{
    let known = view.known(alloc)?;
    absent_among(alloc, view.repo(), known)
}

/// Those of the snapshots that aren't there.
pub(crate) fn absent_among(
    alloc: Global,
    repo: &Repo,
    snapshots: BTreeSet<Id>,
) -> Result<Vec<Id>, AllocError>
    ensures absent { IfOk result (λ absent. absent.items ≡ not_there repo.now snapshots.keys) }
    ensures ordered { bag.IsOrdered id_cmp snapshots }
{
    snapshots
        .into_iter()
        .filter(|snapshot| is_gone(repo, *snapshot))
        .collect(alloc)
}

/// Whether the snapshot isn't there.
fn is_gone(repo: &Repo, snapshot: Id) -> bool
    ensures { result ≡ not (is_there repo.now (named the_kind.Snapshot snapshot)) }
{
    !repo.facet_filled(Facet::File(FileName::snapshot(snapshot)))
}

/// The names of the snapshots' files.
fn snapshot_names(alloc: Global, snapshots: Vec<Id>) -> Result<Vec<FileName>, AllocError>
    ensures { IfOk result (λ names. names.items ≡ map (named the_kind.Snapshot) snapshots.items) }
{
    snapshots
        .into_iter()
        .map(|snapshot| FileName::snapshot(snapshot))
        .collect(alloc)
}

/// The change that sets these marks, where what is needed stays and the gone snapshots stay away.
fn marking(alloc: Global, marks: Vec<PackMark>, needed: Stored, names: Vec<FileName>) -> Change
    ensures { result ≡ spec.marking marks.items needed names.items }
{
    let mut change = Change::new(alloc);
    change.sets = Listed::from_vec(marks);
    change.present = needed.present;
    change.absent = Listed::from_vec(names);
    change.unmarked = needed.unmarked;
    change.strict = true;
    change
}
