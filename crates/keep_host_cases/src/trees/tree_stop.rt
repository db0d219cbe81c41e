use keep_files::TreeError;
use keep_shelf::Fault;
use std::alloc::{AllocError, AllocFailed};
use thiserror::Error;

/// Why the table ends before all of its cases are answered.
#[derive(Debug, Drop, Error)]
pub(crate) enum Stop {
    /// The row is none that there is.
    #[error("no row of a table")]
    NoRow,
    /// What is to stand at the beginning can't, or not so that the act could be asked for.
    #[error("no such tree")]
    NoTree,
    /// Memory ran out.
    #[error("no memory")]
    Memory,
}

impl From<AllocError> for Stop {
    fn from(_error: AllocError) -> Stop {
        Stop::Memory
    }
}

impl<T: Drop> From<AllocFailed<T>> for Stop {
    fn from(_error: AllocFailed<T>) -> Stop {
        Stop::Memory
    }
}

impl From<Fault> for Stop {
    fn from(_fault: Fault) -> Stop {
        Stop::Memory
    }
}

impl From<TreeError> for Stop {
    fn from(_error: TreeError) -> Stop {
        Stop::NoTree
    }
}
