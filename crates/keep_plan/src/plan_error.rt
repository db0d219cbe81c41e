use crate::unreached::Unreached;
use keep_catalog::{CatalogError, ReachError, Unread};
use std::alloc::{AllocError, AllocFailed};
use std::fmt;
use thiserror::Error;

/// Why a planner plans nothing. It prints as it is answered to an operator.
///
/// Of several refusals that are due a planner gives the first: of its own arguments, of a file, of a reach, `Full`,
/// `SnapshotThere`, `NothingToDo`.
#[derive(Clone, Copy, Debug, PartialEq, Eq, Error)]
pub enum PlanError {
    /// A path is none that can be backed up.
    BadPath,
    /// A path stands twice, or is a file here and a folder there.
    SamePathTwice,
    /// The time isn't one that a snapshot can have.
    BadTime,
    /// The edit of tags asks for nothing, or for what can't be asked at once.
    BadEdit,
    /// The pattern is none.
    BadPattern,
    /// This file of the repository can't be read.
    Unread(Unread),
    /// What is reached from a snapshot can't be told.
    Reach(Unreached),
    /// A path has more folders than trees may stand one below the other.
    TooDeep,
    /// A blob has 4,294,967,296 bytes or more.
    Full,
    /// The repository has this very snapshot.
    SnapshotThere,
    /// Nothing would change.
    NothingToDo,
    /// Memory ran out.
    Memory,
}

impl PlanError {
    ghost use Rattle.std.specs.Prelude.{◌≡◌};
    ghost use Rattle.keep_plan.specs.Refusal.{plan_number};

    /// The number by which operators know the refusal. Want of memory has none.
    pub fn number(&self) -> Option<u8>
        ensures { result ≡ plan_number self.now }
    {
        match self {
            PlanError::BadPath => Some(16),
            PlanError::SamePathTwice => Some(17),
            PlanError::BadTime => Some(11),
            PlanError::BadEdit => Some(20),
            PlanError::BadPattern => Some(21),
            PlanError::Unread(file) => file.refusal.number(),
            PlanError::Reach(why) => ReachError::from(*why).number(),
            PlanError::TooDeep => Some(14),
            PlanError::Full => Some(27),
            PlanError::SnapshotThere => Some(18),
            PlanError::NothingToDo => Some(19),
            PlanError::Memory => None,
        }
    }
}

impl fmt::Display for PlanError {
    ghost use Rattle.std.specs.Prelude.{Some};
    ghost use Rattle.keep_plan.specs.Refusal.{plan_text};

    ghost output = { λ refusal. Some (plan_text refusal) };

    fn fmt<W: fmt::Write>(&self, f: &mut fmt::Formatter<W>) -> fmt::Result {
        match self {
            PlanError::BadPath => f.write_str("BadPath"),
            PlanError::SamePathTwice => f.write_str("SamePathTwice"),
            PlanError::BadTime => f.write_str("BadTime"),
            PlanError::BadEdit => f.write_str("BadEdit"),
            PlanError::BadPattern => f.write_str("BadPattern"),
            PlanError::Unread(file) => write!(f, "{file}"),
            PlanError::Reach(why) => write!(f, "{}", ReachError::from(*why)),
            PlanError::TooDeep => f.write_str("TooDeep"),
            PlanError::Full => f.write_str("Full"),
            PlanError::SnapshotThere => f.write_str("SnapshotThere"),
            PlanError::NothingToDo => f.write_str("NothingToDo"),
            PlanError::Memory => f.write_str("Memory"),
        }
    }
}

impl From<CatalogError> for PlanError {
    ghost use Rattle.std.specs.Prelude.{◌≡◌};
    ghost use Rattle.keep_plan.specs.Refusal.{of_catalog};

    ghost from_gives = { λ refusal error. error ≡ of_catalog refusal };

    fn from(refusal: CatalogError) -> PlanError {
        match refusal {
            CatalogError::Unread(file) => PlanError::Unread(file),
            CatalogError::Memory => PlanError::Memory,
        }
    }
}

impl From<ReachError> for PlanError {
    ghost use Rattle.std.specs.Prelude.{◌≡◌};
    ghost use Rattle.keep_plan.specs.Refusal.{of_reach};

    ghost from_gives = { λ refusal error. error ≡ of_reach refusal };

    fn from(refusal: ReachError) -> PlanError {
        match refusal {
            ReachError::TooDeep => PlanError::Reach(Unreached::TooDeep),
            ReachError::BadTree => PlanError::Reach(Unreached::BadTree),
            ReachError::MissingBlob(id) => PlanError::Reach(Unreached::MissingBlob(id)),
            ReachError::WrongHash(id) => PlanError::Reach(Unreached::WrongHash(id)),
            ReachError::Memory => PlanError::Memory,
        }
    }
}

impl From<AllocError> for PlanError {
    ghost use Rattle.std.specs.Prelude.{◌≡◌};
    ghost use Rattle.keep_plan.specs.declared.plan_error.PlanError.TheVariants.{Memory};

    ghost from_gives = { λ _ error. error ≡ Memory };

    fn from(_error: AllocError) -> PlanError {
        PlanError::Memory
    }
}

impl<T: Drop> From<AllocFailed<T>> for PlanError {
    ghost use Rattle.std.specs.Prelude.{◌≡◌};
    ghost use Rattle.keep_plan.specs.declared.plan_error.PlanError.TheVariants.{Memory};

    ghost from_gives = { λ _ error. error ≡ Memory };

    fn from(_error: AllocFailed<T>) -> PlanError {
        PlanError::Memory
    }
}
