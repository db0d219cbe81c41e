use keep_catalog::{ReachError, Unread};
use std::alloc::AllocError;
use std::fmt;
use thiserror::Error;

/// Why a snapshot isn't restored. The first that holds is answered, in this order. It prints as it is
/// answered to an operator.
#[derive(Clone, Copy, Debug, PartialEq, Eq, Error)]
pub enum RestoreError {
    /// There is no snapshot of this name.
    NoSnapshot,
    /// The snapshot can't be read.
    Unread(Unread),
    /// The first refusal of what is reached from its tree, depth first. Want of memory is `ReachError`'s.
    Reach(ReachError),
}

impl fmt::Display for RestoreError {
    ghost use Rattle.std.specs.Prelude.{Some};
    ghost use Rattle.keep_read.specs.Refusals.{restore_text};

    ghost output = { λ refusal. Some (restore_text refusal) };

    fn fmt<W: fmt::Write>(&self, f: &mut fmt::Formatter<W>) -> fmt::Result {
        match self {
            RestoreError::NoSnapshot => f.write_str("NoSnapshot"),
            RestoreError::Unread(file) => write!(f, "{file}"),
            RestoreError::Reach(refusal) => write!(f, "{refusal}"),
        }
    }
}

impl From<AllocError> for RestoreError {
    ghost use Rattle.std.specs.Prelude.{◌≡◌};
    ghost use Rattle.keep_catalog.specs.declared.reach_error.ReachError.TheVariants.{Memory};
    ghost use Rattle.keep_read.specs.declared.restore_error.RestoreError.TheVariants.{Reach};

    ghost from_gives = { λ _ error. error ≡ Reach Memory };

    fn from(_error: AllocError) -> RestoreError {
        RestoreError::Reach(ReachError::Memory)
    }
}

impl From<ReachError> for RestoreError {
    ghost use Rattle.std.specs.Prelude.{◌≡◌};
    ghost use Rattle.keep_read.specs.declared.restore_error.RestoreError.TheVariants.{Reach};

    ghost from_gives = { λ refusal error. error ≡ Reach refusal };

    fn from(refusal: ReachError) -> RestoreError {
        RestoreError::Reach(refusal)
    }
}
