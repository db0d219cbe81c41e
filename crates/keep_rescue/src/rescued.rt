use crate::loss::Lost;
use keep_names::FileName;
use keep_sources::Skipped;
use keep_targets::TargetError;
use std::alloc::{AllocError, AllocFailed};

/// What a rescue came to.
#[derive(Drop)]
pub struct Rescued<T> {
    /// The new folder.
    pub target: T,
    /// The files that are in it.
    pub saved: Vec<FileName>,
    /// What was read and isn't there.
    pub lost: Vec<Lost>,
    /// What couldn't be read.
    pub skipped: Vec<Skipped>,
    /// Whether its config is the old one.
    pub has_config: bool,
}

/// Why nothing was rescued. The new folder has no config, or a part of one, and doesn't open.
#[derive(Clone, Copy, Debug, PartialEq, Eq)]
pub enum NotRescued {
    /// Something was in the new folder. Nothing was done.
    NotNew,
    /// Nothing of the old folder is whole.
    NothingWhole,
    /// The new folder took no more.
    Refused(TargetError),
    /// Memory ran out.
    Memory,
}

impl From<AllocError> for NotRescued {
    ghost use Rattle.std.specs.Prelude.{◌≡◌};
    ghost use Rattle.keep_rescue.specs.declared.rescued.NotRescued.TheVariants.{Memory};

    ghost from_gives = { λ _ error. error ≡ Memory };

    fn from(_error: AllocError) -> NotRescued {
        NotRescued::Memory
    }
}

impl<E: Drop> From<AllocFailed<E>> for NotRescued {
    ghost use Rattle.std.specs.Prelude.{◌≡◌};
    ghost use Rattle.keep_rescue.specs.declared.rescued.NotRescued.TheVariants.{Memory};

    ghost from_gives = { λ _ error. error ≡ Memory };

    fn from(_error: AllocFailed<E>) -> NotRescued {
        NotRescued::Memory
    }
}
