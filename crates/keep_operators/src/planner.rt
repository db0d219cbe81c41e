use keep_change::Planned;
use keep_crew::Plans;
use keep_jobs::{HoldsFilter, Job, Settings, plan};
use keep_plan::PlanError;
use keep_view::View;
use std::alloc::Global;

/// A job, with all that planning it takes, so that an operator can plan it on another thread.
#[derive(Drop)]
pub struct Planner<F> {
    pub alloc: Global,
    pub settings: Settings,
    pub job: Job<F>,
}

impl<F: HoldsFilter + Drop + Send> Plans for Planner<F> {
    ghost use Rattle.keep_jobs.specs.Job.{job_change, job_view, settings_view};

    ghost wanted = { λ planner shown. job_change shown (settings_view planner.settings) (job_view F.rule planner.job) };

    fn plan(&self, view: &View) -> Result<Planned, PlanError> {
        plan(self.alloc, view, self.settings, &self.job)
    }
}
