ghost use Rattle.std.specs.Prelude.{◌≡◌};

use keep_archive::NotPlanned;
use keep_ledger::Refusal;
use keep_names::FileName;
use keep_plan::PlanError;
use std::alloc::AllocError;

/// Why there is no snapshot of a backup. The parts that were committed before it stay: a later backup need not store them
/// again, and a prune takes what no snapshot needs.
#[derive(Debug, PartialEq, Eq, Drop)]
pub enum NotBackedUp {
    /// What was given makes no backup, or a change of it isn't planned. Want of memory is this one's.
    Unplanned(PlanError),
    /// A file that was built is there already with other bytes: it was damaged, and what the backup would store in it
    /// couldn't be restored. Behind a drop of the file the backup can be done.
    Differs(FileName),
    /// The book refused a change that was planned.
    Refused(Refusal),
}

impl From<AllocError> for NotBackedUp {
    ghost use Rattle.keep_backups.specs.declared.not_backed_up.NotBackedUp.TheVariants.{Unplanned};
    ghost use Rattle.keep_plan.specs.declared.plan_error.PlanError.TheVariants.{Memory};

    ghost from_gives = { λ _ refused. refused ≡ Unplanned Memory };

    fn from(_error: AllocError) -> NotBackedUp {
        NotBackedUp::Unplanned(PlanError::Memory)
    }
}

impl From<PlanError> for NotBackedUp {
    ghost use Rattle.keep_backups.specs.declared.not_backed_up.NotBackedUp.TheVariants.{Unplanned};

    ghost from_gives = { λ error refused. refused ≡ Unplanned error };

    fn from(error: PlanError) -> NotBackedUp {
        NotBackedUp::Unplanned(error)
    }
}

impl From<NotPlanned> for NotBackedUp {
    ghost use Rattle.keep_backups.specs.Parts.{of_archive};

    ghost from_gives = { λ refused cause. cause ≡ of_archive refused };

    fn from(refused: NotPlanned) -> NotBackedUp {
        match refused {
            NotPlanned::Unplanned(error) => NotBackedUp::Unplanned(error),
            NotPlanned::Differs(file) => NotBackedUp::Differs(file),
        }
    }
}
