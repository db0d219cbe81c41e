ghost use Rattle.std.specs.Prelude.{◌≡◌};

use keepd::{Fault, Key, MemoryShelf, Rope, Shelf};
use std::alloc::Global;

/// A shelf in memory that counts the calls that change it. What its promise asks is what the shelf within promises: each
/// call is done whole or not at all, and one that failed changed nothing.
#[derive(Drop)]
pub(crate) struct LoggedShelf<'a> {
    within: MemoryShelf,
    changes: &'a mut u64,
}

impl<'a> LoggedShelf<'a> {
    /// With nothing on it. The calls are counted there.
    pub(crate) fn new(alloc: Global, changes: &'a mut u64) -> LoggedShelf<'a> {
        LoggedShelf {
            within: MemoryShelf::new(alloc),
            changes,
        }
    }

    fn count(&mut self)
        ensures { self.new.within ≡ self.old.within }
    {
        *self.changes = self.changes.saturating_add(1);
    }
}

impl Shelf for LoggedShelf<'_> {
    ghost shelved = { λ logged. logged.within };

    fn read(&mut self, key: Key) -> Result<Option<Rope>, Fault> {
        self.within.read(key)
    }

    fn write(&mut self, key: Key, bytes: &Rope) -> Result<(), Fault> {
        self.count();
        self.within.write(key, bytes)
    }

    fn shift(&mut self, from: Key, to: Key) -> Result<(), Fault> {
        self.count();
        self.within.shift(from, to)
    }

    fn erase(&mut self, key: Key) -> Result<(), Fault> {
        self.count();
        self.within.erase(key)
    }

    fn list(&mut self) -> Result<Vec<Key>, Fault> {
        self.within.list()
    }
}
