ghost use Rattle.std.specs.Prelude.{◌≡◌};

use keep_shelf::Fault;
use std::alloc::AllocError;
use std::fmt;
use thiserror::Error;

/// Why a shelf isn't opened. It prints as it is answered to an operator.
#[derive(Debug, PartialEq, Eq, Drop, Error)]
pub enum OpenError {
    /// What stands there can't be read. The least number of an entry with which something is wrong; where nothing is,
    /// and the files aren't those that the entries tell, that of the last entry, 0 where none is.
    BadEntry(u64),
    /// A call of the shelf failed.
    Fault,
    /// Memory ran out.
    Memory,
}

impl fmt::Display for OpenError {
    ghost use Rattle.std.specs.Prelude.{Some};
    ghost use Rattle.keep_opening.specs.OpenError.{open_error_text};

    ghost output = { λ error. Some (open_error_text error) };

    fn fmt<W: fmt::Write>(&self, f: &mut fmt::Formatter<W>) -> fmt::Result {
        match self {
            OpenError::BadEntry(number) => write!(f, "BadEntry {number}"),
            OpenError::Fault => f.write_str("Fault"),
            OpenError::Memory => f.write_str("Memory"),
        }
    }
}

impl From<AllocError> for OpenError {
    ghost use Rattle.keep_opening.specs.declared.open_error.OpenError.TheVariants as the_error;

    ghost from_gives = { λ _ error. error ≡ the_error.Memory };

    fn from(_error: AllocError) -> OpenError {
        OpenError::Memory
    }
}

impl From<Fault> for OpenError {
    ghost use Rattle.keep_opening.specs.declared.open_error.OpenError.TheVariants as the_error;

    ghost from_gives = { λ _ error. error ≡ the_error.Fault };

    fn from(_fault: Fault) -> OpenError {
        OpenError::Fault
    }
}
