ghost use Rattle.std.specs.Prelude.{◌≡◌, Err, IfOk, true};
ghost use Rattle.keep_docs.specs.Doc.{Answers};
ghost use Rattle.keep_jobs.specs.Job.{has_bad_edit, job_change, job_view, settings_view};
ghost use Rattle.keep_plan.specs.declared.plan_error.PlanError.TheVariants as the_error;
ghost use Rattle.keep_view.specs.Planned.{IsPlannedOn};

use crate::holds_filter::HoldsFilter;
use crate::job::{Job, Settings};
use keep_backup::plan_backup;
use keep_change::Planned;
use keep_plan::PlanError;
use keep_upkeep::{plan_mark, plan_repair, plan_sweep};
use keep_view::View;
use std::alloc::Global;

/// The change that the job asks for, planned on what the view shows, or its planner's refusal. A bad edit is found
/// before memory is taken.
pub fn plan<F: HoldsFilter>(
    alloc: Global,
    view: &View,
    settings: Settings,
    job: &Job<F>,
) -> Result<Planned, PlanError>
    ensures change { Answers the_error.Memory (λ planned. planned.change)
        (job_change view.now (settings_view settings) (job_view F.rule job.now)) result }
    ensures planned { IfOk result (IsPlannedOn view.now) }
    ensures bad_edit { has_bad_edit (job_view F.rule job.now) ≡ true → result ≡ Err the_error.BadEdit }
{
    match job {
        Job::Backup { facts, files } => plan_backup(alloc, view, files, facts, settings.cut),
        Job::Filtered { filter, task } => filter.plan(alloc, view, task),
        Job::Repair => plan_repair(alloc, view),
        Job::Mark => plan_mark(alloc, view, settings.now),
        Job::Sweep(wait) => plan_sweep(alloc, view, settings.now, *wait),
    }
}
