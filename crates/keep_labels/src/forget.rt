ghost use Rattle.std.specs.Prelude.{◌≡◌, IfOk, map};
ghost use Rattle.keep_docs.specs.Doc.{Answers};
ghost use Rattle.keep_snap.specs.Facts.{facts_view};
ghost use Rattle.keep_view.specs.Planned.{IsPlannedOn};
ghost use Rattle.keep_labels.specs.Forgetting as spec;
ghost use Rattle.keep_labels.specs.Forgetting.{forget_change, forgetting_of};
ghost use Rattle.keep_labels.specs.Keeping.{EachOnce, policy_view};
ghost use Rattle.keep_plan.specs.declared.plan_error.PlanError.TheVariants as the_error;

use crate::label_laws::a_planned_forget_can_be_made;
use crate::policy::{Policy, dropped};
use crate::swap::{snapshot_files, swap};
use crate::taken_snapshots::taken;
use keep_change::{Change, Planned, StoredFile};
use keep_plan::{Filter, PlanError};
use keep_snap::SnapFacts;
use keep_view::View;
use std::alloc::{AllocError, Global};

/// The change that drops those of the snapshots that the filter takes which the policy doesn't keep. Blobs stay
/// where they are.
///
/// The refusals in their order: `Unread`, `NothingToDo`, which a policy without a rule is too.
pub fn plan_forget(
    alloc: Global,
    view: &View,
    filter: &Filter,
    policy: &Policy,
) -> Result<Planned, PlanError>
    ensures change { Answers the_error.Memory (λ planned. planned.change)
        (forget_change view.now.repo filter.now.rule (policy_view policy.now)) result }
    ensures planned { IfOk result (IsPlannedOn view.now) }
{
    a_planned_forget_can_be_made();
    let taken = taken(alloc, view, filter)?;
    plan_of(alloc, view, policy, &taken)
}

/// The change that drops those of these snapshots which the policy doesn't keep.
fn plan_of(
    alloc: Global,
    view: &View,
    policy: &Policy,
    taken: &[SnapFacts],
) -> Result<Planned, PlanError>
    requires { EachOnce (map facts_view taken.now) }
    ensures change { Answers the_error.Memory (λ planned. planned.change)
        (forgetting_of view.now.repo (policy_view policy.now) (map facts_view taken.now)) result }
    ensures seen { IfOk result (λ planned. planned.seen ≡ view.now.length) }
{
    let names = dropped(alloc, policy, taken)?;
    let files = snapshot_files(alloc, view.repo(), &names)?;
    let change = forget(alloc, policy, files)?;
    Ok(Planned {
        change,
        seen: view.length(),
    })
}

fn forget(alloc: Global, policy: &Policy, files: Vec<StoredFile>) -> Result<Change, PlanError>
    ensures { result ≡ spec.forgetting (policy_view policy.now) files.items }
{
    if policy.has_no_rule() || files.is_empty() {
        return Err(PlanError::NothingToDo);
    }
    Ok(swap(alloc, files, Vec::new(alloc)))
}
