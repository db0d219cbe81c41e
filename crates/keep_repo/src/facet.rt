ghost use Rattle.std.specs.Prelude.{Some};
ghost use Rattle.keep_repo.specs.Facet.{facet_text};

use keep_names::{FileName, Id};
use std::fmt;

/// What a change can write or look at: the file of a name, or the mark of a pack. It is filled or empty.
///
/// Files come before marks, files by name and marks by pack.
#[derive(Clone, Copy, Debug, PartialEq, Eq, PartialOrd, Ord, Hash)]
pub enum Facet {
    File(FileName),
    Mark(Id),
}

/// What a repository keeps of a marked pack. That it is there says that the pack may be swept.
#[derive(Clone, Copy, PartialEq, Eq)]
pub struct Mark {
    /// When the pack was marked: whole seconds since 1970-01-01T00:00:00Z, less than 0 before it.
    pub moment: i64,
}

impl fmt::Display for Facet {
    ghost output = { λ facet. Some (facet_text facet) };

    fn fmt<W: fmt::Write>(&self, f: &mut fmt::Formatter<W>) -> fmt::Result {
        match self {
            Facet::File(name) => write!(f, "{name}"),
            Facet::Mark(pack) => write!(f, "mark {pack}"),
        }
    }
}
