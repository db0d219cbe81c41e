use keep_docs::{ConfigError, DocError};
use keep_entries::EntryError;
use keep_index::IndexError;
use keep_names::BadId;
use keep_pack::PackError;
use keep_patterns::PatternError;
use keep_snap::SnapError;
use keep_tree::TreeError;
use std::alloc::{AllocError, AllocFailed};
use std::fmt;

/// Why a case has no other answer.
#[derive(Clone, Copy)]
pub(crate) enum No {
    Doc(DocError),
    Entry(EntryError),
    Index(IndexError),
    Pack(PackError),
    Snap(SnapError),
    Config,
    Tree,
    Pattern,
    Id,
    /// The line is no case.
    Case,
    Memory,
}

impl From<DocError> for No {
    fn from(why: DocError) -> No {
        No::Doc(why)
    }
}

impl From<EntryError> for No {
    fn from(why: EntryError) -> No {
        No::Entry(why)
    }
}

impl From<IndexError> for No {
    fn from(why: IndexError) -> No {
        No::Index(why)
    }
}

impl From<PackError> for No {
    fn from(why: PackError) -> No {
        No::Pack(why)
    }
}

impl From<SnapError> for No {
    fn from(why: SnapError) -> No {
        No::Snap(why)
    }
}

impl From<ConfigError> for No {
    fn from(why: ConfigError) -> No {
        match why {
            ConfigError::Doc(why) => No::Doc(why),
            ConfigError::BadConfig => No::Config,
        }
    }
}

impl From<TreeError> for No {
    fn from(why: TreeError) -> No {
        match why {
            TreeError::Doc(why) => No::Doc(why),
            TreeError::BadTree => No::Tree,
        }
    }
}

impl From<PatternError> for No {
    fn from(why: PatternError) -> No {
        match why {
            PatternError::BadPattern => No::Pattern,
            PatternError::Memory => No::Memory,
        }
    }
}

impl From<BadId> for No {
    fn from(_why: BadId) -> No {
        No::Id
    }
}

impl From<AllocError> for No {
    fn from(_why: AllocError) -> No {
        No::Memory
    }
}

impl<T: Drop> From<AllocFailed<T>> for No {
    fn from(_why: AllocFailed<T>) -> No {
        No::Memory
    }
}

impl No {
    /// The number of the refusal, where its crate gives one.
    fn number(&self) -> Option<u8> {
        match self {
            No::Doc(why) => why.number(),
            No::Index(why) => why.number(),
            No::Pack(why) => why.number(),
            No::Snap(why) => why.number(),
            _ => None,
        }
    }

    fn write_word<W: fmt::Write>(&self, f: &mut fmt::Formatter<W>) -> fmt::Result {
        match self {
            No::Doc(why) => fmt::Display::fmt(why, f),
            No::Entry(why) => fmt::Display::fmt(why, f),
            No::Index(why) => fmt::Display::fmt(why, f),
            No::Pack(why) => fmt::Display::fmt(why, f),
            No::Snap(why) => fmt::Display::fmt(why, f),
            No::Config => f.write_str("BadConfig"),
            No::Tree => f.write_str("BadTree"),
            No::Pattern => f.write_str("BadPattern"),
            No::Id => f.write_str("BadId"),
            No::Case => f.write_str("such case"),
            No::Memory => f.write_str("memory left"),
        }
    }
}

impl fmt::Display for No {
    fn fmt<W: fmt::Write>(&self, f: &mut fmt::Formatter<W>) -> fmt::Result {
        self.write_word(f)?;
        match self.number() {
            Some(number) => write!(f, " {number}"),
            None => Ok(()),
        }
    }
}
