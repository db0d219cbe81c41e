ghost use Rattle.std.specs.Prelude.{◌≡◌};

use keep_rope::Rope;
use keep_shelf::{Fault, Key, Shelf};

/// A shelf that hands each call on to the shelf behind it, and counts it.
#[derive(Drop)]
pub(crate) struct Counted<S> {
    inner: S,
    calls: u64,
}

impl<S: Shelf> Counted<S> {
    pub fn new(inner: S) -> Counted<S> {
        Counted { inner, calls: 0 }
    }

    /// How many calls were made.
    pub fn calls(&self) -> u64 {
        self.calls
    }

    fn count(&mut self)
        ensures { self.new.inner ≡ self.old.inner }
    {
        self.calls = self.calls.saturating_add(1);
    }
}

impl<S: Shelf> Shelf for Counted<S> {
    ghost shelved = { λ s. S.shelved s.inner };

    fn read(&mut self, key: Key) -> Result<Option<Rope>, Fault> {
        self.count();
        self.inner.read(key)
    }

    fn write(&mut self, key: Key, bytes: &Rope) -> Result<(), Fault> {
        self.count();
        self.inner.write(key, bytes)
    }

    fn shift(&mut self, from: Key, to: Key) -> Result<(), Fault> {
        self.count();
        self.inner.shift(from, to)
    }

    fn erase(&mut self, key: Key) -> Result<(), Fault> {
        self.count();
        self.inner.erase(key)
    }

    fn list(&mut self) -> Result<Vec<Key>, Fault> {
        self.count();
        self.inner.list()
    }

    fn is_sure(&self) -> bool {
        self.inner.is_sure()
    }
}
