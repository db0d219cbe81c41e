ghost use Rattle.std.specs.Prelude.{◌≡◌, Err, Ok, IfOk};
ghost use Rattle.keep_plan.specs.declared.plan_error.PlanError.TheVariants.{NothingToDo};
ghost use Rattle.keep_desk_trials.specs.Adding.{adding};

use keep_change::{Change, Listed, Planned, StoredFile};
use keep_desk::{DeskError, Plans};
use keep_ledger::{Refusal, Told};
use keep_names::Kind;
use keep_plan::PlanError;
use keep_view::View;
use std::alloc::{AllocError, Global};

/// Adds an index of this one byte, whatever is shown. No planner can read it.
#[derive(Clone, Copy)]
pub struct Adding {
    pub alloc: Global,
    pub byte: u8,
}

impl Adding {
    pub fn change(&self) -> Result<Change, AllocError>
        ensures { IfOk result (λ change. change ≡ adding self.now.byte) }
    {
        let bytes = vec![in self.alloc; self.byte]?;
        let file = StoredFile::of(self.alloc, Kind::Index, bytes)?;
        let mut change = Change::new(self.alloc);
        change.adds = Listed::from_vec(vec![in self.alloc; file]?);
        Ok(change)
    }

    pub fn planned(&self, seen: u64) -> Result<Planned, AllocError>
        ensures change { IfOk result (λ planned. planned.change ≡ adding self.now.byte) }
        ensures seen { IfOk result (λ planned. planned.seen ≡ seen) }
    {
        let change = self.change()?;
        Ok(Planned { change, seen })
    }
}

impl Plans for Adding {
    ghost wanted = { λ plans _. Ok (adding plans.byte) };

    fn plan(&self, view: &View) -> Result<Planned, PlanError> {
        Ok(self.planned(view.length())?)
    }
}

/// Finds nothing to do, whatever is shown.
#[derive(Clone, Copy)]
pub struct Idle;

impl Plans for Idle {
    ghost wanted = { λ _ _. Err NothingToDo };

    fn plan(&self, _view: &View) -> Result<Planned, PlanError> {
        Err(PlanError::NothingToDo)
    }
}

/// Whether this change was told at this event.
pub fn is_told(reply: &Result<Told, DeskError>, number: u64, at: u64) -> bool {
    match reply {
        Ok(told) => *told == Told { number, at },
        Err(_) => false,
    }
}

/// Whether this was refused by the book.
pub fn is_refused(reply: &Result<Told, DeskError>, refusal: &Refusal) -> bool {
    match reply {
        Err(DeskError::Refused(why)) => why == refusal,
        _ => false,
    }
}
