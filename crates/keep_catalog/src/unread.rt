use keep_index::IndexError;
use keep_names::FileName;
use keep_pack::PackError;
use keep_snap::SnapError;
use std::fmt;
use thiserror::Error;

/// Why a file can't be read. It prints as its word.
#[derive(Clone, Copy, Debug, PartialEq, Eq, Error)]
pub enum FileError {
    Pack(PackError),
    Index(IndexError),
    Snap(SnapError),
}

/// A file that can't be read. It prints as the word and the file's name.
#[derive(Clone, Copy, Debug, PartialEq, Eq)]
pub struct Unread {
    pub name: FileName,
    pub refusal: FileError,
}

impl FileError {
    ghost use Rattle.std.specs.Prelude.{◌≡◌};
    ghost use Rattle.keep_catalog.specs.Words.{file_number};

    /// The number by which operators know the refusal. Want of memory has none.
    pub fn number(&self) -> Option<u8>
        ensures { result ≡ file_number self.now }
    {
        match self {
            FileError::Pack(refusal) => refusal.number(),
            FileError::Index(refusal) => refusal.number(),
            FileError::Snap(refusal) => refusal.number(),
        }
    }
}

impl fmt::Display for FileError {
    ghost use Rattle.std.specs.Prelude.{Some};
    ghost use Rattle.keep_catalog.specs.Words.{file_word};

    ghost output = { λ refusal. Some (file_word refusal) };

    fn fmt<W: fmt::Write>(&self, f: &mut fmt::Formatter<W>) -> fmt::Result {
        match self {
            FileError::Pack(refusal) => write!(f, "{refusal}"),
            FileError::Index(refusal) => write!(f, "{refusal}"),
            FileError::Snap(refusal) => write!(f, "{refusal}"),
        }
    }
}

impl fmt::Display for Unread {
    ghost use Rattle.std.specs.Prelude.{Some};
    ghost use Rattle.keep_catalog.specs.Words.{unread_text};

    ghost output = { λ unread. Some (unread_text unread) };

    fn fmt<W: fmt::Write>(&self, f: &mut fmt::Formatter<W>) -> fmt::Result {
        write!(f, "{} {}", self.refusal, self.name)
    }
}
