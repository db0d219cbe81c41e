use crate::job::Task;
use crate::task::plan_task;
use keep_change::Planned;
use keep_plan::{Filter, PlanError};
use keep_view::View;
use std::alloc::Global;

/// How a job holds its filter: lent for a line, owned by a worker.
pub trait HoldsFilter {
    ghost use Rattle.std.specs.Prelude.{◌≡◌, Err, IfOk, true};
    ghost use Rattle.keep_docs.specs.Doc.{Answers};
    ghost use Rattle.keep_plan.specs.declared.pick.Pick.{Pick};
    ghost use Rattle.keep_jobs.specs.Job.{is_bad_task, task_change, task_view};
    ghost use Rattle.keep_plan.specs.declared.plan_error.PlanError.TheVariants as the_error;
    ghost use Rattle.keep_view.specs.Planned.{IsPlannedOn};

    /// The rule that the filter answers by.
    ghost rule: { Self → Pick };

    /// The change that does the task to the snapshots that the filter takes.
    fn plan(&self, alloc: Global, view: &View, task: &Task) -> Result<Planned, PlanError>
        ensures change { Answers the_error.Memory (λ planned. planned.change)
            (task_change view.now.repo (rule self.now) (task_view task.now)) result }
        ensures planned { IfOk result (IsPlannedOn view.now) }
        ensures bad_edit { is_bad_task (task_view task.now) ≡ true → result ≡ Err the_error.BadEdit };
}

impl HoldsFilter for Filter {
    ghost rule = { λ filter. filter.rule };

    fn plan(&self, alloc: Global, view: &View, task: &Task) -> Result<Planned, PlanError> {
        plan_task(alloc, view, self, task)
    }
}

impl HoldsFilter for &Filter {
    ghost rule = { λ filter. filter.now.rule };

    fn plan(&self, alloc: Global, view: &View, task: &Task) -> Result<Planned, PlanError> {
        plan_task(alloc, view, self, task)
    }
}
