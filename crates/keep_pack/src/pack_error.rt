ghost use Rattle.std.specs.Prelude.{◌≡◌};
ghost use Rattle.keep_pack.specs.declared.pack_error.PackError.TheVariants.{Memory};

use std::alloc::{AllocError, AllocFailed};
use std::fmt;
use thiserror::Error;

/// Why the header of a pack can't be read: the first of these, in this order.
#[derive(Clone, Copy, Debug, PartialEq, Eq, Error)]
pub enum PackError {
    /// The file has fewer than four bytes.
    ShortPack,
    /// The header's length isn't that of whole entries, or is more than the bytes before it.
    BadHeaderLength,
    /// An entry is neither of data nor of a tree.
    BadBlobType,
    /// The blobs that the header lists aren't the bytes before it.
    LengthsDontFit,
    /// Memory ran out.
    Memory,
}

impl From<AllocError> for PackError {
    ghost from_gives = { λ _ error. error ≡ Memory };

    fn from(_error: AllocError) -> PackError {
        PackError::Memory
    }
}

impl<T: Drop> From<AllocFailed<T>> for PackError {
    ghost from_gives = { λ _ error. error ≡ Memory };

    fn from(_error: AllocFailed<T>) -> PackError {
        PackError::Memory
    }
}

impl PackError {
    ghost use Rattle.std.specs.Prelude.{◌≡◌};
    ghost use Rattle.keep_pack.specs.Refusal.{pack_number};

    /// The number by which operators know the refusal. Want of memory has none.
    pub fn number(&self) -> Option<u8>
        ensures { result ≡ pack_number self.now }
    {
        match self {
            PackError::ShortPack => Some(4),
            PackError::BadHeaderLength => Some(5),
            PackError::BadBlobType => Some(6),
            PackError::LengthsDontFit => Some(7),
            PackError::Memory => None,
        }
    }
}

impl fmt::Display for PackError {
    ghost use Rattle.std.specs.Prelude.{Some};
    ghost use Rattle.keep_pack.specs.Refusal.{pack_word};

    ghost output = { λ refusal. Some (pack_word refusal) };

    fn fmt<W: fmt::Write>(&self, f: &mut fmt::Formatter<W>) -> fmt::Result {
        f.write_str(match self {
            PackError::ShortPack => "ShortPack",
            PackError::BadHeaderLength => "BadHeaderLength",
            PackError::BadBlobType => "BadBlobType",
            PackError::LengthsDontFit => "LengthsDontFit",
            PackError::Memory => "Memory",
        })
    }
}
