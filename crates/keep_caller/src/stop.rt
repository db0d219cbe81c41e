use keepd::{FolderError, NotArmed, NotOpened, OpenError, PlanError, Refusal};
use std::alloc::{AllocError, AllocFailed};
use thiserror::Error;

/// Why the work ends early.
#[derive(Debug, Drop, Error)]
pub(crate) enum Stop {
    #[error("the folder isn't opened: {0:?}")]
    NoFolder(FolderError),
    #[error("the shelf isn't opened: {0}")]
    NotOpened(OpenError),
    #[error("nothing is armed")]
    NotArmed,
    #[error("nothing is planned: {0}")]
    NotPlanned(PlanError),
    #[error("refused: {0}")]
    Refused(Refusal),
    #[error("no memory")]
    Memory,
}

impl From<FolderError> for Stop {
    fn from(error: FolderError) -> Stop {
        Stop::NoFolder(error)
    }
}

impl<S: Drop> From<NotOpened<S>> for Stop {
    fn from(given: NotOpened<S>) -> Stop {
        Stop::NotOpened(given.error)
    }
}

impl<H: Drop> From<NotArmed<H>> for Stop {
    fn from(_hook: NotArmed<H>) -> Stop {
        Stop::NotArmed
    }
}

impl From<PlanError> for Stop {
    fn from(error: PlanError) -> Stop {
        Stop::NotPlanned(error)
    }
}

impl From<Refusal> for Stop {
    fn from(refusal: Refusal) -> Stop {
        Stop::Refused(refusal)
    }
}

impl From<AllocError> for Stop {
    fn from(_error: AllocError) -> Stop {
        Stop::Memory
    }
}

impl<T: Drop> From<AllocFailed<T>> for Stop {
    fn from(_error: AllocFailed<T>) -> Stop {
        Stop::Memory
    }
}
