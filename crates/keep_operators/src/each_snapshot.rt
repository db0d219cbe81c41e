use keep_change::Planned;
use keep_jobs::{HoldsFilter, Task};
use keep_plan::{AskFacts, Filter, Pick, PlanError};
use keep_snap::SnapFacts;
use keep_view::View;
use std::alloc::Global;

/// The filter that takes each snapshot. It holds no question, so that a job that goes by it can be handed to any
/// thread.
#[derive(Clone, Copy)]
pub struct EachSnapshot;

impl HoldsFilter for EachSnapshot {
    ghost use Rattle.keep_plan.specs.declared.pick.Pick.TheVariants.{Any};

    ghost rule = { λ _. Any };

    fn plan(&self, alloc: Global, view: &View, task: &Task) -> Result<Planned, PlanError> {
        if let Task::Tag(edit) = task {
            if edit.is_bad() {
                return Err(PlanError::BadEdit);
            }
        }
        let ask: AskFacts = Box::new(alloc, |_: &SnapFacts| true)?;
        let each = Filter::new(String::new(alloc), Pick::Any, ask);
        each.plan(alloc, view, task)
    }
}
