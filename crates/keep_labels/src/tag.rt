ghost use Rattle.std.specs.Prelude.{◌≡◌, true, Err, IfOk, map};
ghost use Rattle.keep_docs.specs.Doc.{Answers};
ghost use Rattle.keep_snap.specs.Facts.{facts_view};
ghost use Rattle.keep_view.specs.Planned.{IsPlannedOn};
ghost use Rattle.keep_labels.specs.Edits.{edit_view, is_bad_edit};
ghost use Rattle.keep_labels.specs.Tagging as spec;
ghost use Rattle.keep_labels.specs.Tagging.{changed_by, tag_change, tagging_of};
ghost use Rattle.keep_plan.specs.declared.plan_error.PlanError.TheVariants as the_error;

use crate::edit::Edit;
use crate::label_laws::a_planned_tagging_can_be_made;
use crate::retagged::{Relabeled, retagged};
use crate::swap::{snapshot_files, swap};
use keep_catalog::Catalog;
use keep_change::{Change, Planned, StoredFile};
use keep_plan::{Filter, PlanError, split_new};
use keep_repo::Repo;
use keep_snap::SnapFacts;
use keep_view::View;
use std::alloc::{AllocError, Global};

/// The change that puts snapshots with other tags in the place of those that the filter takes, where the edit
/// changes their tags. A new one says which snapshot it was made of first.
///
/// The refusals in their order: `BadEdit`, which is found before memory is taken, `Unread`, `SnapshotThere`, which two
/// that become one are too, `NothingToDo`.
pub fn plan_tag(
    alloc: Global,
    view: &View,
    filter: &Filter,
    edit: &Edit,
) -> Result<Planned, PlanError>
    ensures change { Answers the_error.Memory (λ planned. planned.change)
        (tag_change view.now.repo filter.now.rule (edit_view edit.now)) result }
    ensures planned { IfOk result (IsPlannedOn view.now) }
    ensures bad_edit { is_bad_edit (edit_view edit.now) ≡ true → result ≡ Err the_error.BadEdit }
{
    a_planned_tagging_can_be_made();
    if edit.is_bad() {
        return Err(PlanError::BadEdit);
    }
    let catalog = view.catalog(alloc)?;
    let taken = filter.taken(alloc, &catalog)?;
    plan_of(alloc, view, &catalog, edit, &taken)
}

/// The change that puts snapshots with other tags in the place of these, where the edit changes their tags.
fn plan_of(
    alloc: Global,
    view: &View,
    catalog: &Catalog,
    edit: &Edit,
    taken: &[SnapFacts],
) -> Result<Planned, PlanError>
    requires { catalog.now ≡ view.now.repo }
    ensures change { Answers the_error.Memory (λ planned. planned.change)
        (tagging_of view.now.repo (edit_view edit.now) (changed_by (edit_view edit.now) (map facts_view taken.now)))
        result }
    ensures seen { IfOk result (λ planned. planned.seen ≡ view.now.length) }
{
    let Relabeled { names, files } = retagged(alloc, catalog, edit, taken)?;
    let old = snapshot_files(alloc, view.repo(), &names)?;
    let change = put_in_place(alloc, view.repo(), old, files)?;
    Ok(Planned {
        change,
        seen: view.length(),
    })
}

/// The change that puts the new files in the place of the old ones.
fn put_in_place(
    alloc: Global,
    repo: &Repo,
    old: Vec<StoredFile>,
    new: Vec<StoredFile>,
) -> Result<Change, PlanError>
    ensures { Answers the_error.Memory (λ change. change) (spec.tagging repo.now old.items new.items) result }
{
    let adds = split_new(alloc, repo, new)?.ok_or(PlanError::SnapshotThere)?;
    if old.is_empty() {
        return Err(PlanError::NothingToDo);
    }
    Ok(swap(alloc, old, adds))
}
