use keep_names::BadId;
use keep_patterns::PatternError;
use keep_sources::Stop;
use std::alloc::{AllocError, AllocFailed};
use std::fmt;

/// Why a case has no other answer.
#[derive(Clone, Copy)]
pub(crate) enum No {
    /// Where another thread goes ahead it is another.
    Ahead,
    /// The line is no case.
    Case,
    Memory,
}

impl From<AllocError> for No {
    fn from(_why: AllocError) -> No {
        No::Memory
    }
}

impl<T: Drop> From<AllocFailed<T>> for No {
    fn from(_why: AllocFailed<T>) -> No {
        No::Memory
    }
}

impl From<BadId> for No {
    fn from(_why: BadId) -> No {
        No::Case
    }
}

impl From<PatternError> for No {
    fn from(_why: PatternError) -> No {
        No::Case
    }
}

impl From<Stop> for No {
    fn from(_why: Stop) -> No {
        No::Memory
    }
}

impl fmt::Display for No {
    fn fmt<W: fmt::Write>(&self, f: &mut fmt::Formatter<W>) -> fmt::Result {
        f.write_str(match self {
            No::Ahead => "ahead",
            No::Case => "case",
            No::Memory => "memory",
        })
    }
}
