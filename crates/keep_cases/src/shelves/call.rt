use keep_paths::path_of_key;
use keep_shelf::Key;
use std::alloc::{AllocError, Global};
use std::fmt::Write;

/// What a call asked of a shelf.
#[derive(Clone, Copy)]
pub(crate) enum Act {
    Read(Key),
    Write(Key),
    /// From the first key to the second.
    Shift(Key, Key),
    Erase(Key),
    List,
}

/// A call that was made.
#[derive(Clone, Copy)]
pub(crate) struct Call {
    pub act: Act,
    pub failed: bool,
}

impl Call {
    /// Writes the call as a line, each key as the path that it has in a folder.
    pub fn show(&self, alloc: Global, out: &mut String) -> Result<(), AllocError> {
        match self.act {
            Act::Read(key) => write!(out, "  read {}", path_of_key(alloc, key)?)?,
            Act::Write(key) => write!(out, "  write {}", path_of_key(alloc, key)?)?,
            Act::Shift(from, to) => {
                let (from, to) = (path_of_key(alloc, from)?, path_of_key(alloc, to)?);
                write!(out, "  shift {from} {to}")?;
            }
            Act::Erase(key) => write!(out, "  erase {}", path_of_key(alloc, key)?)?,
            Act::List => write!(out, "  list")?,
        }
        writeln!(out, "{}", if self.failed { " fails" } else { "" })
    }
}
