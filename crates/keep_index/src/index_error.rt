use keep_docs::DocError;
use std::alloc::{AllocError, AllocFailed};
use std::fmt;
use thiserror::Error;

/// Why bytes weren't read as an index.
#[derive(Clone, Copy, Debug, PartialEq, Eq, Error)]
pub enum IndexError {
    /// It isn't a document.
    Doc(DocError),
    /// It isn't an object, `packs` or `blobs` is neither a list nor null, a pack or a blob lacks a value or
    /// has a wrong one, or a length is 2^32 or more.
    BadIndex,
}

impl From<DocError> for IndexError {
    ghost use Rattle.std.specs.Prelude.{◌≡◌};
    ghost use Rattle.keep_index.specs.declared.index_error.IndexError.TheVariants.{Doc};

    ghost from_gives = { λ refusal error. error ≡ Doc refusal };

    fn from(refusal: DocError) -> IndexError {
        IndexError::Doc(refusal)
    }
}

impl From<AllocError> for IndexError {
    ghost use Rattle.std.specs.Prelude.{◌≡◌};
    ghost use Rattle.keep_docs.specs.declared.doc.DocError.TheVariants.{Memory};
    ghost use Rattle.keep_index.specs.declared.index_error.IndexError.TheVariants.{Doc};

    ghost from_gives = { λ _ error. error ≡ Doc Memory };

    fn from(_error: AllocError) -> IndexError {
        IndexError::Doc(DocError::Memory)
    }
}

impl<T: Drop> From<AllocFailed<T>> for IndexError {
    ghost use Rattle.std.specs.Prelude.{◌≡◌};
    ghost use Rattle.keep_docs.specs.declared.doc.DocError.TheVariants.{Memory};
    ghost use Rattle.keep_index.specs.declared.index_error.IndexError.TheVariants.{Doc};

    ghost from_gives = { λ _ error. error ≡ Doc Memory };

    fn from(_error: AllocFailed<T>) -> IndexError {
        IndexError::Doc(DocError::Memory)
    }
}

impl IndexError {
    ghost use Rattle.std.specs.Prelude.{◌≡◌};
    ghost use Rattle.keep_index.specs.Refusal.{index_number};

    /// The number by which operators know the refusal. Want of memory has none.
    pub fn number(&self) -> Option<u8>
        ensures { result ≡ index_number self.now }
    {
        match self {
            IndexError::Doc(why) => why.number(),
            IndexError::BadIndex => Some(9),
        }
    }
}

impl fmt::Display for IndexError {
    ghost use Rattle.std.specs.Prelude.{Some};
    ghost use Rattle.keep_index.specs.Refusal.{index_word};

    ghost output = { λ refusal. Some (index_word refusal) };

    fn fmt<W: fmt::Write>(&self, f: &mut fmt::Formatter<W>) -> fmt::Result {
        match self {
            IndexError::Doc(why) => write!(f, "{why}"),
            IndexError::BadIndex => f.write_str("BadIndex"),
        }
    }
}
