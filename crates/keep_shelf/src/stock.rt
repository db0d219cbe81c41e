ghost use Rattle.std.specs.Prelude.{◌≡◌, ℕ, IfOk, List, OnOk, OnErr, option_copied};
ghost use Rattle.std.specs.FinMap as map;
ghost use Rattle.keep_shelf.specs.Shelved.{Content, shifted};

use crate::key::Key;
use indexmap::IndexMap;
use keep_repo::Bytes;
use keep_rope::Rope;
use std::alloc::{AllocError, Global};
use std::collections::BTreeMap;
use std::marker::Model;

/// Bytes by key, in memory. Files are found by the key's hash, and entries by their number.
///
/// Entries are as many as events, and would make the table of the files' hashes large: they stand apart from it.
pub struct Stock {
    alloc: Global,
    /// Live files and the trash.
    files: IndexMap<Key, Rope>,
    /// Entries by number.
    entries: BTreeMap<u64, Rope>,
}

impl Model for Stock {
    ghost use Rattle.keep_shelf.specs.Shelved.{Content, coded_content};
    ghost use Rattle.keep_shelf.specs.Stocked.{HasNoEntry, files_and_entries};

    ghost Value = { Content };

    ghost coded = { coded_content };

    ghost view = { λ s. files_and_entries s.files.entries s.entries.entries };

    ghost invariant = { λ s. HasNoEntry s.files.entries };
}

// One call drops it, where each `?` would else drop each part of it, which is long to prove.
impl Drop for Stock {
    fn drop(self) {
        let Stock {
            alloc: _,
            files: _,
            entries: _,
        } = self;
    }
}

impl Stock {
    /// The stock without anything.
    pub fn new(alloc: Global) -> Stock
        ensures { result ≡ map.empty }
    {
        Stock {
            alloc,
            files: IndexMap::new(alloc),
            entries: BTreeMap::new(alloc),
        }
    }

    /// A stock of its own with the same bytes, which are shared.
    pub fn copy(&self) -> Result<Stock, AllocError>
        ensures { IfOk result (λ made. made ≡ self.now) }
    {
        Ok(Stock {
            alloc: self.alloc,
            files: self.files.clone()?,
            entries: self.entries.clone()?,
        })
    }

    /// What is under the key, lent.
    pub fn get(&self, key: Key) -> Option<&Rope>
        ensures { option_copied result ≡ map.get self.now key }
    {
        match key {
            Key::Entry(at) => self.entries.get(&at),
            _ => self.files.get(&key),
        }
    }

    /// What is under the key, with another holder.
    pub fn shared(&self, key: Key) -> Result<Option<Rope>, AllocError>
        ensures { IfOk result (λ found. found ≡ map.get self.now key) }
    {
        match self.get(key) {
            Some(bytes) => Ok(Some(bytes.clone()?)),
            None => Ok(None),
        }
    }

    /// The bytes under the key, shared where they are held whole, and else made of the pieces.
    pub fn bytes(&self, key: Key) -> Result<Option<Bytes>, AllocError>
        ensures { IfOk result (λ found. found ≡ map.get self.now key) }
    {
        match self.get(key) {
            Some(rope) => Ok(Some(rope.bytes(self.alloc)?)),
            None => Ok(None),
        }
    }

    /// The keys under which there is something, in order. It takes n log n steps for n keys.
    pub fn keys(&self) -> Result<Vec<Key>, AllocError>
        ensures { IfOk result (λ keys. keys.items ≡ map.keys self.now) }
    {
        let mut keys: Vec<Key> = self.files.keys().copied().collect(self.alloc)?;
        keys.sort_unstable();
        keys.extend(self.entries.keys().map(|at| Key::Entry(*at)))?;
        Ok(keys)
    }

    /// Puts the bytes under the key, and answers what was there.
    ///
    /// In the place of others they take no memory, and else they may take memory for more places.
    pub fn write(&mut self, key: Key, bytes: Rope) -> Result<Option<Rope>, AllocError>
        ensures was { IfOk result (λ was. was ≡ map.get self.old key) }
        ensures ok { OnOk result (self.new ≡ map.insert self.old key bytes) }
        ensures err { OnErr result (self.new ≡ self.old) }
        ensures absent { OnErr result (map.get self.old key ≡ None) }
    {
        match key {
            Key::Entry(at) => Ok(self.entries.insert(at, bytes)?),
            _ => Ok(self.files.insert(key, bytes)?),
        }
    }

    /// Takes back that bytes were put under the key, where this was there before.
    pub fn put_back(&mut self, key: Key, was: Option<Rope>)
        ensures { (before : Content) (put : List ℕ) → map.get before key ≡ was
            → self.old ≡ map.insert before key put → self.new ≡ before }
    {
        match was {
            Some(bytes) => {
                let _ = self.write(key, bytes);
            }
            None => self.erase(key),
        }
    }

    /// Puts what is under one key under another one.
    #[tactic(auto, using(crate::proofs::Shifting::shifting))]
    pub fn shift(&mut self, from: Key, to: Key) -> Result<(), AllocError>
        ensures ok { OnOk result (self.new ≡ shifted self.old from to) }
        ensures err { OnErr result (self.new ≡ self.old) }
    {
        if let Some(bytes) = self.shared(from)? {
            self.write(to, bytes)?;
            self.erase(from);
        }
        Ok(())
    }

    /// Takes away what is under the key. Where few of the files' places are in use then, it gives back memory.
    pub fn erase(&mut self, key: Key)
        ensures { self.new ≡ map.remove self.old key }
    {
        match key {
            Key::Entry(at) => {
                self.entries.remove(&at);
            }
            _ => {
                self.files.swap_remove(&key);
                self.give_back();
            }
        }
    }

    /// Gives back the memory of files' places where fewer than a quarter are in use. At least twice as many as are in
    /// use stay, so that erasing one by one takes the same time for each on average.
    fn give_back(&mut self)
        ensures { self.new ≡ self.old }
    {
        let used = self.files.len();
        if used < self.files.capacity() / 4 {
            self.files.shrink_to(2 * used);
        }
    }
}
