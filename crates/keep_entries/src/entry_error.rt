use std::alloc::AllocError;
use std::fmt;
use thiserror::Error;

/// Why bytes weren't read as an entry of a journal. It prints as it is answered to an operator.
#[derive(Clone, Copy, Debug, PartialEq, Eq, Error)]
pub enum EntryError {
    /// They aren't the text of an entry; the number that it should have.
    BadEntry(u64),
    /// Memory ran out.
    Memory,
}

impl fmt::Display for EntryError {
    ghost use Rattle.std.specs.Prelude.{Some};
    ghost use Rattle.keep_entries.specs.Refusal.{refusal_text};

    ghost output = { λ refusal. Some (refusal_text refusal) };

    fn fmt<W: fmt::Write>(&self, f: &mut fmt::Formatter<W>) -> fmt::Result {
        match self {
            EntryError::BadEntry(number) => write!(f, "BadEntry {number}"),
            EntryError::Memory => f.write_str("Memory"),
        }
    }
}

impl From<AllocError> for EntryError {
    ghost use Rattle.std.specs.Prelude.{◌≡◌};
    ghost use Rattle.keep_entries.specs.declared.entry_error.EntryError.TheVariants.{Memory};

    ghost from_gives = { λ _ refusal. refusal ≡ Memory };

    fn from(_error: AllocError) -> EntryError {
        EntryError::Memory
    }
}
