ghost use Rattle.std.specs.Prelude.{◌≡◌};

use keep_ledger::Refusal;
use keep_plan::PlanError;
use std::alloc::{AllocError, AllocFailed};

/// Why nothing came of a job. Nothing is changed then.
#[derive(Debug, PartialEq, Eq, Drop)]
pub enum NotDone {
    /// Its planner planned nothing.
    Unplanned(PlanError),
    /// The book refused the change that was planned.
    Refused(Refusal),
}

impl From<PlanError> for NotDone {
    ghost use Rattle.keep_acts.specs.declared.not_done.NotDone.TheVariants.{Unplanned};

    ghost from_gives = { λ error refused. refused ≡ Unplanned error };

    fn from(error: PlanError) -> NotDone {
        NotDone::Unplanned(error)
    }
}

impl From<AllocError> for NotDone {
    ghost use Rattle.keep_acts.specs.declared.not_done.NotDone.TheVariants.{Unplanned};
    ghost use Rattle.keep_plan.specs.declared.plan_error.PlanError.TheVariants.{Memory};

    ghost from_gives = { λ _ refused. refused ≡ Unplanned Memory };

    fn from(_error: AllocError) -> NotDone {
        NotDone::Unplanned(PlanError::Memory)
    }
}

impl<T: Drop> From<AllocFailed<T>> for NotDone {
    ghost use Rattle.keep_acts.specs.declared.not_done.NotDone.TheVariants.{Unplanned};
    ghost use Rattle.keep_plan.specs.declared.plan_error.PlanError.TheVariants.{Memory};

    ghost from_gives = { λ _ refused. refused ≡ Unplanned Memory };

    fn from(_error: AllocFailed<T>) -> NotDone {
        NotDone::Unplanned(PlanError::Memory)
    }
}
