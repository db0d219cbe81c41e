ghost use Rattle.std.specs.Prelude.{◌≡◌, ◌≢◌, IfErr, IfOk, None, Some, map};
ghost use Rattle.keep_snap.specs.Facts.{facts_view};
ghost use Rattle.keep_plan.specs.Taking.{taken_in};
ghost use Rattle.keep_plan.specs.Refusal.{unread_first};
ghost use Rattle.keep_plan.specs.declared.plan_error.PlanError.TheVariants as the_error;

use keep_plan::{Filter, PlanError};
use keep_snap::SnapFacts;
use keep_view::View;
use std::alloc::Global;

/// The facts of the snapshots that the filter takes, by name, if each pack, index and snapshot can be read.
pub(crate) fn taken(
    alloc: Global,
    view: &View,
    filter: &Filter,
) -> Result<Vec<SnapFacts>, PlanError>
    ensures taken { IfOk result (λ taken. map facts_view taken.items ≡ taken_in filter.now.rule view.now.repo) }
    ensures all_read { IfOk result (λ _. unread_first view.now.repo ≡ None) }
    ensures refused { IfErr result (λ error. error ≢ the_error.Memory → unread_first view.now.repo ≡ Some error) }
{
    let catalog = view.catalog(alloc)?;
    let taken = filter.taken(alloc, &catalog)?;
    Ok(taken)
}
