ghost use Rattle.std.specs.Prelude.{◌≤◌, IfErr, IfOk, length, take};

use crate::sources::copy::copy_of;
use crate::sources::source_entry::{Entry, Failure};
use keep_sources::{FolderListing, Source, Stat, Why};
use std::alloc::{AllocError, Global};
use std::collections::BTreeMap;

/// Files, folders and what else lies below a root, by their paths. The root's is empty.
#[derive(Drop)]
pub struct MemorySource {
    alloc: Global,
    entries: BTreeMap<String, Entry>,
}

impl MemorySource {
    /// A source of these entries.
    pub fn new(alloc: Global, entries: BTreeMap<String, Entry>) -> MemorySource {
        MemorySource { alloc, entries }
    }

    fn entry(&self, path: &str) -> Result<&Entry, Why> {
        match self.entries.get(path) {
            Some(entry) => Ok(entry),
            None => Err(Why::Gone),
        }
    }

    /// The names of what lies right in the folder, in the order of the paths, which is theirs.
    fn names_in(&self, folder: &str) -> Result<Vec<String>, AllocError> {
        let mut names = Vec::new(self.alloc);
        for path in self.entries.keys() {
            if let Some(name) = name_in(folder, path.as_str()) {
                names.push(String::from_str(self.alloc, name)?)?;
            }
        }
        Ok(names)
    }
}

impl Source for MemorySource {
    ghost use Rattle.keep_sources.specs.Told.{anything};

    ghost told = { anything };

    fn look(&mut self, path: &str) -> Result<Stat, Why> {
        let entry = self.entry(path)?;
        if let Some(Failure::Look(why)) = entry.failure {
            return Err(why);
        }
        match copy_of(&entry.sight) {
            Ok(sight) => Ok(sight),
            Err(AllocError) => Err(Why::Failed),
        }
    }

    fn list(&mut self, folder: &str, _seen: &Stat) -> Result<FolderListing, Why> {
        let entry = self.entry(folder)?;
        if let Some(Failure::List(why)) = entry.failure {
            return Err(why);
        }
        match self.names_in(folder) {
            Ok(names) => Ok(FolderListing {
                names,
                unsayable: entry.unsayable,
            }),
            Err(AllocError) => Err(Why::Failed),
        }
    }

    fn open(&mut self, path: &str, _seen: &Stat) -> Result<(), Why> {
        match self.entry(path)?.failure {
            Some(Failure::Open(why)) => Err(why),
            _ => Ok(()),
        }
    }

    fn read(&mut self, path: &str, offset: u64, piece: &mut [u8]) -> Result<usize, Why> {
        let entry = self.entry(path)?;
        if let Some(Failure::Read(from, why)) = entry.failure {
            if from <= offset {
                return Err(why);
            }
        }
        let Ok(offset) = usize::try_from(offset) else {
            return Ok(0);
        };
        match entry.content.as_slice().get(offset..) {
            Some(rest) => Ok(fill(piece, rest)),
            None => Ok(0),
        }
    }
}

/// Puts as many of the bytes into the piece as it takes.
fn fill(piece: &mut [u8], rest: &[u8]) -> usize
    ensures { result ≤ length piece.new }
{
    let count = piece.len().min(rest.len());
    for i in 0..count {
        piece[i] = rest[i];
    }
    count
}

/// The name that leads from the folder to the path, if one alone does.
fn name_in<'a>(folder: &str, path: &'a str) -> Option<&'a str> {
    let name = if folder.is_empty() {
        path
    } else {
        path.strip_prefix(folder)?.strip_prefix('/')?
    };
    if name.is_empty() || name.contains('/') {
        None
    } else {
        Some(name)
    }
}
