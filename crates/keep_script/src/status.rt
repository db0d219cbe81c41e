ghost use Rattle.std.specs.Prelude.{◌≡◌};
ghost use Rattle.keep_script.specs.Status.{status_at, status_at_end, status_once_flushed};
ghost use Rattle.keep_script.specs.declared.status.Stop.TheVariants.{NoMemory};

use keep_answers::Halt;
use keep_ledger::OpenError;
use keep_lines::Mistake;
use std::alloc::AllocError;

/// How a run ended.
#[derive(PartialEq, Eq, Drop)]
pub enum RunStatus {
    /// The script ended, and each line was answered.
    Done,
    /// The script ended, and each line was answered, one of them at least by `no Fault` or `no Unsettled`.
    Faulted,
    /// The line of this number, from 1, isn't one of the language, for this cause.
    BadLine(u64, Mistake),
    /// A read failed.
    ReadFailed,
    /// The script is longer than a run reads.
    ScriptTooLong,
    /// A write failed, so what is written may break off anywhere.
    WriteFailed,
    /// The run itself found no memory: for a line, a note or an answer. Of the answer to `list`,
    /// `history`, `restore` or `audit` the first lines may be written.
    NoMemory,
    /// A call of the shelf failed, and it isn't known whether it was done, nor so what the line that asked for it
    /// changed. No answer to that line is written.
    Untold,
    /// The shelf wasn't opened, for this cause, which isn't want of memory. Nothing was read or written.
    NotOpened(OpenError),
}

impl RunStatus {
    /// How a run ends whose script ended, by whether a fault was answered.
    pub(crate) fn at_end(faulted: bool) -> RunStatus
        ensures { result ≡ status_at_end faulted }
    {
        if faulted {
            RunStatus::Faulted
        } else {
            RunStatus::Done
        }
    }

    /// How a run ends that would end so, once the writer was flushed.
    pub(crate) fn once_flushed(self, flushed: Result<(), Stop>) -> RunStatus
        ensures { result ≡ status_once_flushed self flushed }
    {
        match flushed {
            Ok(()) => self,
            Err(_) => RunStatus::WriteFailed,
        }
    }
}

impl From<OpenError> for RunStatus {
    ghost use Rattle.keep_script.specs.Status.{status_unopened};

    ghost from_gives = { λ error status. status ≡ status_unopened error };

    /// How a run ends whose shelf isn't opened.
    fn from(error: OpenError) -> RunStatus {
        match error {
            OpenError::Memory => RunStatus::NoMemory,
            error => RunStatus::NotOpened(error),
        }
    }
}

/// Why a run ends before its script does.
#[derive(Clone, Copy)]
pub(crate) enum Stop {
    BadLine(Mistake),
    ReadFailed,
    ScriptTooLong,
    WriteFailed,
    NoMemory,
    Untold,
}

impl Stop {
    /// How a run ends that stops at the line of this number.
    pub fn status(self, number: u64) -> RunStatus
        ensures { result ≡ status_at self number }
    {
        match self {
            Stop::BadLine(why) => RunStatus::BadLine(number, why),
            Stop::ReadFailed => RunStatus::ReadFailed,
            Stop::ScriptTooLong => RunStatus::ScriptTooLong,
            Stop::WriteFailed => RunStatus::WriteFailed,
            Stop::NoMemory => RunStatus::NoMemory,
            Stop::Untold => RunStatus::Untold,
        }
    }
}

impl From<Halt> for Stop {
    ghost use Rattle.keep_script.specs.Status.{stop_of};

    ghost from_gives = { λ halt stop. stop ≡ stop_of halt };

    fn from(halt: Halt) -> Stop {
        match halt {
            Halt::BadLine(why) => Stop::BadLine(why),
            Halt::WriteFailed => Stop::WriteFailed,
            Halt::NoMemory => Stop::NoMemory,
            Halt::Untold => Stop::Untold,
        }
    }
}

impl From<AllocError> for Stop {
    ghost from_gives = { λ _ stop. stop ≡ NoMemory };

    fn from(_error: AllocError) -> Stop {
        Stop::NoMemory
    }
}
