ghost use Rattle.std.specs.Prelude.{◌≡◌, Err, IfOk, map, string_bytes, true};
ghost use Rattle.keep_docs.specs.Doc.{Answers};
ghost use Rattle.keep_jobs.specs.Job.{is_bad_task, rewriting, task_change, task_view};
ghost use Rattle.keep_jobs.specs.Patterns.{patterns_in};
ghost use Rattle.keep_plan.specs.declared.plan_error.PlanError.TheVariants as the_error;
ghost use Rattle.keep_view.specs.Planned.{IsPlannedOn};

use crate::job::Task;
use crate::patterns::patterns_of;
use keep_change::Planned;
use keep_labels::{plan_forget, plan_tag};
use keep_plan::{Filter, PlanError};
use keep_rewrite::plan_rewrite;
use keep_view::View;
use std::alloc::Global;

/// The change that does the task to the snapshots that the filter takes.
pub(crate) fn plan_task(
    alloc: Global,
    view: &View,
    filter: &Filter,
    task: &Task,
) -> Result<Planned, PlanError>
    ensures change { Answers the_error.Memory (λ planned. planned.change)
        (task_change view.now.repo filter.now.rule (task_view task.now)) result }
    ensures planned { IfOk result (IsPlannedOn view.now) }
    ensures bad_edit { is_bad_task (task_view task.now) ≡ true → result ≡ Err the_error.BadEdit }
{
    match task {
        Task::Tag(edit) => plan_tag(alloc, view, filter, edit),
        Task::Forget(policy) => plan_forget(alloc, view, filter, policy),
        Task::Rewrite { forget, patterns } => rewrite(alloc, view, filter, *forget, patterns),
    }
}

/// The rewrite by the patterns that these texts spell.
fn rewrite(
    alloc: Global,
    view: &View,
    filter: &Filter,
    forget: bool,
    texts: &[String],
) -> Result<Planned, PlanError>
    ensures change { Answers the_error.Memory (λ planned. planned.change)
        (rewriting view.now.repo filter.now.rule forget (patterns_in (map string_bytes texts.now))) result }
    ensures planned { IfOk result (IsPlannedOn view.now) }
{
    let patterns = patterns_of(alloc, texts)?;
    plan_rewrite(alloc, view, filter, &patterns, forget)
}
