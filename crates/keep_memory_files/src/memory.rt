ghost use Rattle.std.specs.Prelude.{◌≡◌, ℕ, List};
ghost use Rattle.keep_files.specs.Act.{failed};

mod acts;
mod beside;
mod nodes;

use crate::done_act::DoneAct;
use keep_files::{FileTree, Node, TreeError};
use keep_log::Log;
use keep_rope::Rope;
use std::alloc::{AllocError, Global};
use std::collections::BTreeMap;

/// Files and folders in memory, by path. A call fails where memory doesn't suffice.
///
/// Of what was done nothing is kept: the record is for proofs alone.
#[derive(Drop)]
pub struct MemoryTree {
    alloc: Global,
    nodes: BTreeMap<String, Node>,
    deeds: Log<DoneAct>,
    failures: u64,
}

impl MemoryTree {
    ghost use Rattle.keep_memory_files.specs.Memory.{act_of, noted, seen_in};

    /// The tree in which nothing stands.
    pub fn new(alloc: Global) -> MemoryTree
        ensures nothing { (path : List ℕ) → (seen_in result).stands path ≡ None }
        ensures none_yet { (seen_in result).failures ≡ 0 }
    {
        MemoryTree {
            alloc,
            nodes: BTreeMap::new(alloc),
            deeds: Log::new(),
            failures: 0,
        }
    }

    /// How many calls failed. The count ends at 2^64 - 1.
    pub fn failures(&self) -> u64
        ensures { result ≡ (seen_in self.now).failures }
    {
        self.failures
    }

    /// Counts a call that failed.
    fn fail(&mut self, error: TreeError) -> TreeError
        ensures same { result ≡ error }
        ensures counted { seen_in self.new ≡ failed (seen_in self.old) }
    {
        self.failures = self.failures.saturating_add(1);
        error
    }

    /// Notes that this was done.
    fn note(&mut self, deed: &DoneAct)
        ensures { seen_in self.new ≡ noted (seen_in self.old) (act_of deed.now) }
    {
        self.deeds = self.deeds.and(deed);
    }
}

impl FileTree for MemoryTree {
    ghost use Rattle.keep_memory_files.specs.Memory.{seen_in};

    ghost seen = { seen_in };

    fn read(&mut self, path: &str) -> Result<Option<Node>, TreeError> {
        match self.shared(path) {
            Ok(found) => Ok(found),
            Err(AllocError) => Err(self.fail(TreeError::Broken)),
        }
    }

    fn has_folder(&mut self, path: &str) -> Result<bool, TreeError> {
        Ok(self.is_folder(path))
    }

    fn list(&mut self, folder: &str) -> Result<Vec<String>, TreeError> {
        match self.paths_in(folder) {
            Ok(paths) => Ok(paths),
            Err(AllocError) => Err(self.fail(TreeError::Broken)),
        }
    }

    fn write_new(&mut self, path: &str, bytes: &Rope) -> Result<(), TreeError> {
        self.write_new_with(path, bytes, || Ok(()))
    }

    fn rename(&mut self, from: &str, to: &str) -> Result<(), TreeError> {
        self.rename_with(from, to, || Ok(()))
    }

    fn remove(&mut self, path: &str) -> Result<(), TreeError> {
        self.remove_with(path, || Ok(()))
    }

    fn make_folder(&mut self, path: &str) -> Result<(), TreeError> {
        self.make_folder_with(path, || Ok(()))
    }

    fn sync_folder(&mut self, path: &str) -> Result<(), TreeError> {
        self.sync_folder_with(path, || Ok(()))
    }
}
