ghost use Rattle.std.specs.Prelude.{◌≡◌};

use keep_files::{FileTree, Node, TreeError};
use keep_rope::Rope;
use std::alloc::{AllocError, Global};
use std::fmt::Write;

/// A tree that hands each call on to the tree behind it, and notes it.
#[derive(Drop)]
pub(crate) struct Logged<T> {
    pub inner: T,
    /// A line for each call.
    lines: String,
    calls: u64,
    /// Whether a call found no memory to be noted.
    lost: bool,
}

impl<T: FileTree> Logged<T> {
    pub fn new(alloc: Global, inner: T) -> Logged<T>
        ensures { result.inner ≡ inner }
    {
        Logged {
            inner,
            lines: String::new(alloc),
            calls: 0,
            lost: false,
        }
    }

    /// The lines of all calls so far.
    pub fn lines(&self) -> Result<&str, AllocError> {
        if self.lost {
            return Err(AllocError);
        }
        Ok(self.lines.as_str())
    }

    /// How many calls were made so far. The count ends at 2^64 - 1.
    pub fn calls(&self) -> u64 {
        self.calls
    }

    fn note(&mut self, verb: &str, path: &str, failed: bool)
        ensures { self.new.inner ≡ self.old.inner }
    {
        let path = if path.is_empty() { "/" } else { path };
        let end = if failed { " fails" } else { "" };
        self.calls = self.calls.saturating_add(1);
        if let Err(_) = writeln!(self.lines, "  {verb} {path}{end}") {
            self.lost = true;
        }
    }

    fn note_rename(&mut self, from: &str, to: &str, failed: bool)
        ensures { self.new.inner ≡ self.old.inner }
    {
        let end = if failed { " fails" } else { "" };
        self.calls = self.calls.saturating_add(1);
        if let Err(_) = writeln!(self.lines, "  rename {from} {to}{end}") {
            self.lost = true;
        }
    }
}

impl<T: FileTree> FileTree for Logged<T> {
    ghost seen = { λ t. T.seen t.inner };

    fn read(&mut self, path: &str) -> Result<Option<Node>, TreeError> {
        let found = self.inner.read(path);
        self.note("read", path, found.is_err());
        found
    }

    fn has_folder(&mut self, path: &str) -> Result<bool, TreeError> {
        let found = self.inner.has_folder(path);
        self.note("has_folder", path, found.is_err());
        found
    }

    fn list(&mut self, folder: &str) -> Result<Vec<String>, TreeError> {
        let found = self.inner.list(folder);
        self.note("list", folder, found.is_err());
        found
    }

    fn write_new(&mut self, path: &str, bytes: &Rope) -> Result<(), TreeError> {
        let done = self.inner.write_new(path, bytes);
        self.note("write_new", path, done.is_err());
        done
    }

    fn rename(&mut self, from: &str, to: &str) -> Result<(), TreeError> {
        let done = self.inner.rename(from, to);
        self.note_rename(from, to, done.is_err());
        done
    }

    fn remove(&mut self, path: &str) -> Result<(), TreeError> {
        let done = self.inner.remove(path);
        self.note("remove", path, done.is_err());
        done
    }

    fn make_folder(&mut self, path: &str) -> Result<(), TreeError> {
        let done = self.inner.make_folder(path);
        self.note("make_folder", path, done.is_err());
        done
    }

    fn sync_folder(&mut self, path: &str) -> Result<(), TreeError> {
        let done = self.inner.sync_folder(path);
        self.note("sync_folder", path, done.is_err());
        done
    }
}
