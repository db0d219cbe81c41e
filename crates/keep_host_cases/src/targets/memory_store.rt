use crate::targets::thing::{Kind, Thing};
use keep_files::home_of;
use keep_noted_target::Store;
use keep_targets::{Owner, Short, TargetError, Times};
use std::alloc::{AllocError, Global};
use std::collections::BTreeMap;

/// Files, folders and links in memory. The disk is full at one call, which is told by its number, or at none.
#[derive(Drop)]
pub(crate) struct MemoryStore {
    alloc: Global,
    pub(crate) things: BTreeMap<String, Thing>,
    /// How many calls are made until the one that finds the disk full. At 0 none does.
    until_full: u64,
}

impl MemoryStore {
    pub(crate) fn new(alloc: Global, until_full: u64) -> MemoryStore {
        MemoryStore {
            alloc,
            things: BTreeMap::new(alloc),
            until_full,
        }
    }

    /// Whether the disk is full at this call.
    fn is_full(&mut self) -> bool {
        if self.until_full == 0 {
            return false;
        }
        self.until_full -= 1;
        self.until_full == 0
    }

    /// Has this at a place where nothing is, in a folder that can be written.
    fn make(&mut self, path: &str, thing: Thing) -> Result<(), TargetError> {
        if self.is_full() {
            return Err(TargetError::Full);
        }
        if !self.has_home(path) {
            return Err(TargetError::Denied);
        }
        if self.things.get(path).is_some() {
            return Err(TargetError::Taken);
        }
        match self.insert(path, thing) {
            Ok(()) => Ok(()),
            Err(AllocError) => Err(TargetError::Memory),
        }
    }

    fn insert(&mut self, path: &str, thing: Thing) -> Result<(), AllocError> {
        let path = String::from_str(self.alloc, path)?;
        self.things.insert(path, thing)?;
        Ok(())
    }

    /// Whether the folder that holds the path is there, and its owner can write to it.
    fn has_home(&self, path: &str) -> bool {
        match home_of(path) {
            Some("") => true,
            Some(home) => match self.things.get(home) {
                Some(thing) => matches!(thing.kind, Kind::Folder) && thing.mode & 0o300 == 0o300,
                None => false,
            },
            None => false,
        }
    }

    fn thing(&mut self, path: &str) -> Result<&mut Thing, TargetError> {
        if self.is_full() {
            return Err(TargetError::Full);
        }
        match self.things.get_mut(path) {
            Some(thing) => Ok(thing),
            None => Err(TargetError::Failed),
        }
    }
}

impl Store for MemoryStore {
    fn make_folder(&mut self, path: &str) -> Result<(), TargetError> {
        self.make(path, Thing::new(Kind::Folder, 0o700))
    }

    fn make_file(&mut self, path: &str) -> Result<(), TargetError> {
        let bytes = Vec::new(self.alloc);
        self.make(path, Thing::new(Kind::File(bytes), 0o600))
    }

    fn append(&mut self, path: &str, bytes: &[u8]) -> Result<(), Short> {
        let is_full = self.is_full();
        let count = if is_full {
            bytes.len() / 2
        } else {
            bytes.len()
        };
        let Some(
            Thing {
                kind: Kind::File(held),
                mode: _,
                owner: _,
                times: _,
            },
        ) = self.things.get_mut(path)
        else {
            return Err(short(0, TargetError::Failed));
        };
        if held
            .extend_from_slice(bytes.get(..count).unwrap_or(&[]))
            .is_err()
        {
            return Err(short(0, TargetError::Memory));
        }
        if is_full {
            return Err(short(count as u64, TargetError::Full));
        }
        Ok(())
    }

    fn make_link(&mut self, path: &str, to: &str) -> Result<(), TargetError> {
        let Ok(to) = String::from_str(self.alloc, to) else {
            return Err(TargetError::Memory);
        };
        self.make(path, Thing::new(Kind::Link(to), 0o777))
    }

    fn set_owner(&mut self, path: &str, owner: Owner) -> Result<(), TargetError> {
        self.thing(path)?.owner = Some(owner);
        Ok(())
    }

    fn set_link_owner(&mut self, path: &str, owner: Owner) -> Result<(), TargetError> {
        self.thing(path)?.owner = Some(owner);
        Ok(())
    }

    fn set_mode(&mut self, path: &str, mode: u32) -> Result<(), TargetError> {
        self.thing(path)?.mode = mode;
        Ok(())
    }

    fn set_times(&mut self, path: &str, times: Times) -> Result<(), TargetError> {
        self.thing(path)?.times = Some(times);
        Ok(())
    }
}

fn short(written: u64, refusal: TargetError) -> Short {
    Short { written, refusal }
}
