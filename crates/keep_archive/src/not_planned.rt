use keep_names::FileName;
use keep_plan::PlanError;
use std::alloc::AllocError;

/// Why a change of an archive isn't planned.
#[derive(Debug, PartialEq, Eq, Drop)]
pub enum NotPlanned {
    /// A planner refuses it. Want of memory is this one's.
    Unplanned(PlanError),
    /// A file that was built for it is there already with other bytes: it was damaged, and what the change would store
    /// in it couldn't be restored. Once it is dropped, the change can be planned.
    Differs(FileName),
}

impl From<PlanError> for NotPlanned {
    ghost use Rattle.std.specs.Prelude.{◌≡◌};
    ghost use Rattle.keep_archive.specs.declared.not_planned.NotPlanned.TheVariants.{Unplanned};

    ghost from_gives = { λ error refused. refused ≡ Unplanned error };

    fn from(error: PlanError) -> NotPlanned {
        NotPlanned::Unplanned(error)
    }
}

impl From<AllocError> for NotPlanned {
    ghost use Rattle.std.specs.Prelude.{◌≡◌};
    ghost use Rattle.keep_archive.specs.declared.not_planned.NotPlanned.TheVariants.{Unplanned};
    ghost use Rattle.keep_plan.specs.declared.plan_error.PlanError.TheVariants.{Memory};

    ghost from_gives = { λ _ refused. refused ≡ Unplanned Memory };

    fn from(_error: AllocError) -> NotPlanned {
        NotPlanned::Unplanned(PlanError::Memory)
    }
}
