ghost use Rattle.std.specs.Prelude.{◌≡◌};

use keep_lines::{LineError, Mistake};
use std::alloc::{AllocError, AllocFailed};

/// Why a line isn't answered to its end.
#[derive(Clone, Copy)]
pub enum Halt {
    /// It isn't one of the language, for this cause. Nothing was done for it.
    BadLine(Mistake),
    /// A write failed.
    WriteFailed,
    /// Memory ran out, for the line, a note or the answer.
    NoMemory,
    /// A call of the shelf failed, and it isn't known whether it was done, so the answer isn't known either. None of it
    /// is written.
    Untold,
}

impl From<LineError> for Halt {
    ghost use Rattle.keep_answers.specs.Halting.{halt_of};

    ghost from_gives = { λ error halt. halt ≡ halt_of error };

    fn from(error: LineError) -> Halt {
        match error {
            LineError::Bad(why) => Halt::BadLine(why),
            LineError::Memory => Halt::NoMemory,
        }
    }
}

impl From<AllocError> for Halt {
    ghost use Rattle.keep_answers.specs.declared.halt.Halt.TheVariants.{NoMemory};

    ghost from_gives = { λ _ halt. halt ≡ NoMemory };

    fn from(_error: AllocError) -> Halt {
        Halt::NoMemory
    }
}

impl<T: Drop> From<AllocFailed<T>> for Halt {
    ghost use Rattle.keep_answers.specs.declared.halt.Halt.TheVariants.{NoMemory};

    ghost from_gives = { λ _ halt. halt ≡ NoMemory };

    fn from(_error: AllocFailed<T>) -> Halt {
        Halt::NoMemory
    }
}
