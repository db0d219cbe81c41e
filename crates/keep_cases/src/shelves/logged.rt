ghost use Rattle.std.specs.Prelude.{◌≡◌};

use crate::shelves::call::{Act, Call};
use keep_rope::Rope;
use keep_shelf::{Fault, Key, Shelf};
use std::alloc::{AllocError, Global};

/// A shelf that hands each call on to the shelf behind it, and notes it.
#[derive(Drop)]
pub(crate) struct Logged<S> {
    inner: S,
    calls: Vec<Call>,
    /// Whether a call found no memory to be noted.
    lost: bool,
}

impl<S: Shelf> Logged<S> {
    pub fn new(alloc: Global, inner: S) -> Logged<S> {
        Logged {
            inner,
            calls: Vec::new(alloc),
            lost: false,
        }
    }

    /// The shelf behind it.
    pub fn inner(&self) -> &S {
        &self.inner
    }

    /// All calls so far.
    pub fn calls(&self) -> Result<&[Call], AllocError> {
        if self.lost {
            return Err(AllocError);
        }
        Ok(self.calls.as_slice())
    }

    fn note(&mut self, act: Act, failed: bool)
        ensures { self.new.inner ≡ self.old.inner }
    {
        if let Err(_) = self.calls.push(Call { act, failed }) {
            self.lost = true;
        }
    }
}

impl<S: Shelf> Shelf for Logged<S> {
    ghost shelved = { λ s. S.shelved s.inner };

    fn read(&mut self, key: Key) -> Result<Option<Rope>, Fault> {
        let found = self.inner.read(key);
        self.note(Act::Read(key), found.is_err());
        found
    }

    fn write(&mut self, key: Key, bytes: &Rope) -> Result<(), Fault> {
        let done = self.inner.write(key, bytes);
        self.note(Act::Write(key), done.is_err());
        done
    }

    fn shift(&mut self, from: Key, to: Key) -> Result<(), Fault> {
        let done = self.inner.shift(from, to);
        self.note(Act::Shift(from, to), done.is_err());
        done
    }

    fn erase(&mut self, key: Key) -> Result<(), Fault> {
        let done = self.inner.erase(key);
        self.note(Act::Erase(key), done.is_err());
        done
    }

    fn list(&mut self) -> Result<Vec<Key>, Fault> {
        let keys = self.inner.list();
        self.note(Act::List, keys.is_err());
        keys
    }

    fn is_sure(&self) -> bool {
        self.inner.is_sure()
    }
}
