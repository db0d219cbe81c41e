use keep_names::Id;
use std::alloc::{AllocError, AllocFailed};
use std::fmt;
use thiserror::Error;

/// Why what is reached from a tree can't be told: the first of these, depth first. It prints as its word, and
/// the blob's id where it has one.
#[derive(Clone, Copy, Debug, PartialEq, Eq, Error)]
pub enum ReachError {
    /// A tree stands deeper than level 256. It is told before the tree is sought.
    TooDeep,
    /// The bytes of a tree aren't one.
    BadTree,
    /// No index and header in an unmarked pack have the blob.
    MissingBlob(Id),
    /// An index and a header have the blob, and none of its bytes have its id.
    WrongHash(Id),
    /// Memory ran out.
    Memory,
}

impl From<AllocError> for ReachError {
    ghost use Rattle.std.specs.Prelude.{◌≡◌};
    ghost use Rattle.keep_catalog.specs.declared.reach_error.ReachError.TheVariants.{Memory};

    ghost from_gives = { λ _ error. error ≡ Memory };

    fn from(_error: AllocError) -> ReachError {
        ReachError::Memory
    }
}

impl<T: Drop> From<AllocFailed<T>> for ReachError {
    ghost use Rattle.std.specs.Prelude.{◌≡◌};
    ghost use Rattle.keep_catalog.specs.declared.reach_error.ReachError.TheVariants.{Memory};

    ghost from_gives = { λ _ error. error ≡ Memory };

    fn from(_error: AllocFailed<T>) -> ReachError {
        ReachError::Memory
    }
}

impl ReachError {
    ghost use Rattle.std.specs.Prelude.{◌≡◌};
    ghost use Rattle.keep_catalog.specs.Words.{reach_number};

    /// The number by which operators know the refusal. Want of memory has none.
    pub fn number(&self) -> Option<u8>
        ensures { result ≡ reach_number self.now }
    {
        match self {
            ReachError::BadTree => Some(8),
            ReachError::MissingBlob(_) => Some(13),
            ReachError::TooDeep => Some(14),
            ReachError::WrongHash(_) => Some(35),
            ReachError::Memory => None,
        }
    }
}

impl fmt::Display for ReachError {
    ghost use Rattle.std.specs.Prelude.{Some};
    ghost use Rattle.keep_catalog.specs.Words.{reach_text};

    ghost output = { λ refusal. Some (reach_text refusal) };

    fn fmt<W: fmt::Write>(&self, f: &mut fmt::Formatter<W>) -> fmt::Result {
        match self {
            ReachError::BadTree => f.write_str("BadTree"),
            ReachError::MissingBlob(id) => write!(f, "MissingBlob {id}"),
            ReachError::TooDeep => f.write_str("TooDeep"),
            ReachError::WrongHash(id) => write!(f, "WrongHash {id}"),
            ReachError::Memory => f.write_str("Memory"),
        }
    }
}
