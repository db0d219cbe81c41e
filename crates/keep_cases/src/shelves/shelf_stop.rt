use keep_ledger::{NotOpened, OpenError};
use keep_shelf::Fault;
use std::alloc::{AllocError, AllocFailed};
use thiserror::Error;

/// Why the table ends before all of its cases are answered, or a case before its lines are.
#[derive(Debug, Drop, Error)]
pub(crate) enum Stop {
    /// The row is none that there is.
    #[error("no row of a table")]
    NoRow,
    /// A line of a script can't end a run so.
    #[error("no end of a line")]
    NoEnd,
    /// The shelf isn't opened.
    #[error("not opened: {0}")]
    NotOpened(OpenError),
    /// Memory ran out.
    #[error("no memory")]
    Memory,
}

impl<S: Drop> From<NotOpened<S>> for Stop {
    fn from(given: NotOpened<S>) -> Stop {
        Stop::NotOpened(given.error)
    }
}

impl From<AllocError> for Stop {
    fn from(_error: AllocError) -> Stop {
        Stop::Memory
    }
}

impl<T: Drop> From<AllocFailed<T>> for Stop {
    fn from(_error: AllocFailed<T>) -> Stop {
        Stop::Memory
    }
}

impl From<Fault> for Stop {
    fn from(_fault: Fault) -> Stop {
        Stop::Memory
    }
}
