ghost use Rattle.std.specs.Prelude.{◌≡◌, IfOk, OnOk, OnErr};
ghost use Rattle.std.specs.FinMap as map;
ghost use Rattle.keep_shelf.specs.Shelved.{called, failed, stocked};

mod beside;

use crate::key::Key;
use crate::shelf::{Fault, Shelf};
use crate::stock::Stock;
use keep_log::Log;
use keep_rope::Rope;
use std::alloc::{AllocError, Global};
use std::marker::Model;

/// A shelf in memory. A call of it fails where memory doesn't suffice.
///
/// It keeps what stands on it, and shares the bytes. Of its calls nothing is kept: their record is for proofs alone.
#[derive(Drop)]
pub struct MemoryShelf {
    content: Stock,
    failures: u64,
    /// What stood there when it was made, as the one item.
    made: Log<Stock>,
    /// What each call that didn't fail left.
    calls: Log<Stock>,
}

impl Model for MemoryShelf {
    ghost use Rattle.std.specs.Prelude.{get_or};
    ghost use Rattle.std.specs.FinMap as map;
    ghost use Rattle.keep_shelf.specs.Shelved.{Shelved, coded_shelved};

    ghost Value = { Shelved };

    ghost coded = { coded_shelved };

    ghost view = { λ s. record {
      made = get_or s.made.items 0 map.empty;
      content = s.content;
      failures = s.failures;
      calls = s.calls.items;
    } };
}

impl MemoryShelf {
    /// The shelf without anything on it.
    pub fn new(alloc: Global) -> MemoryShelf
        ensures { result ≡ stocked map.empty }
    {
        MemoryShelf::over(Stock::new(alloc))
    }

    /// How many calls failed. The count ends at 2^64 - 1.
    pub fn failures(&self) -> u64
        ensures { result ≡ self.now.failures }
    {
        self.failures
    }

    /// A new shelf with what stands on this one.
    pub fn afresh(self) -> MemoryShelf
        ensures { result ≡ stocked self.content }
    {
        MemoryShelf::over(self.content)
    }

    /// A new shelf with what stands on this one, which stays. The bytes are shared.
    pub fn copy(&self) -> Result<MemoryShelf, AllocError>
        ensures { IfOk result (λ copy. copy ≡ stocked self.now.content) }
    {
        Ok(MemoryShelf::over(self.content.copy()?))
    }

    /// A new shelf with this on it.
    fn over(content: Stock) -> MemoryShelf
        ensures { result ≡ stocked content }
    {
        let made = Log::new().and(&content);
        MemoryShelf {
            content,
            failures: 0,
            made,
            calls: Log::new(),
        }
    }

    /// Notes that a call was done, and left what stands there now.
    fn note(&mut self)
        ensures { self.new ≡ called self.old self.old.content }
    {
        self.calls = self.calls.and(&self.content);
    }

    fn try_read(&mut self, key: Key) -> Result<Option<Rope>, AllocError>
        ensures found { IfOk result (λ found. found ≡ map.get self.old.content key) }
        ensures ok { OnOk result (self.new ≡ called self.old self.old.content) }
        ensures err { OnErr result (self.new ≡ self.old) }
    {
        let found = self.content.shared(key)?;
        self.note();
        Ok(found)
    }

    fn try_list(&mut self) -> Result<Vec<Key>, AllocError>
        ensures listed { IfOk result (λ keys. keys.items ≡ map.keys self.old.content) }
        ensures ok { OnOk result (self.new ≡ called self.old self.old.content) }
        ensures err { OnErr result (self.new ≡ self.old) }
    {
        let keys = self.content.keys()?;
        self.note();
        Ok(keys)
    }

    /// Counts a call that failed.
    fn fail(&mut self) -> Fault
        ensures { self.new ≡ failed self.old }
    {
        self.failures = self.failures.saturating_add(1);
        Fault
    }
}

impl Shelf for MemoryShelf {
    ghost shelved = { λ s. s };

    fn read(&mut self, key: Key) -> Result<Option<Rope>, Fault> {
        match self.try_read(key) {
            Ok(found) => Ok(found),
            Err(AllocError) => Err(self.fail()),
        }
    }

    fn write(&mut self, key: Key, bytes: &Rope) -> Result<(), Fault> {
        self.write_with(key, bytes, || Ok(()))
    }

    fn shift(&mut self, from: Key, to: Key) -> Result<(), Fault> {
        self.shift_with(from, to, || Ok(()))
    }

    fn erase(&mut self, key: Key) -> Result<(), Fault> {
        self.erase_with(key, || Ok(()))
    }

    fn list(&mut self) -> Result<Vec<Key>, Fault> {
        match self.try_list() {
            Ok(keys) => Ok(keys),
            Err(AllocError) => Err(self.fail()),
        }
    }
}
