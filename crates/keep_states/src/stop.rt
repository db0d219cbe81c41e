use keep_ledger::OpenError;
use keep_shelf::Fault;
use std::alloc::{AllocError, AllocFailed};
use thiserror::Error;

/// Why a table ends before all of its lines are answered.
#[derive(Debug, Drop, Error)]
pub(crate) enum Stop {
    /// The line is none that there is.
    #[error("no line of a table")]
    NoLine,
    /// Memory ran out.
    #[error("no memory")]
    Memory,
}

impl From<AllocError> for Stop {
    fn from(_error: AllocError) -> Stop {
        Stop::Memory
    }
}

impl<T: Drop> From<AllocFailed<T>> for Stop {
    fn from(_error: AllocFailed<T>) -> Stop {
        Stop::Memory
    }
}

impl From<Fault> for Stop {
    fn from(_fault: Fault) -> Stop {
        Stop::Memory
    }
}

impl From<OpenError> for Stop {
    fn from(_error: OpenError) -> Stop {
        Stop::Memory
    }
}
