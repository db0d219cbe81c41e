ghost use Rattle.std.specs.Prelude.{◌≡◌, ◌∷◌, ◌≤◌, IfOk, IsTrue, OnOk, OnErr, is_some, length, slice_get};
ghost use Rattle.std.specs.FinMap as map;
ghost use Rattle.keep_shelf.specs.Shelved.{called, failed, shifted, stocked};

use crate::shelves::act::{Act, perform_all};
use crate::shelves::shelf_copy::read_all;
use keep_rope::Rope;
use keep_shelf::{Fault, Key, MemoryShelf, Shelf};
use std::alloc::{AllocError, Global};
use std::marker::Model;

/// A shelf that can tell what stood on it after each of its calls, and is otherwise the one that it stands before.
///
/// It keeps its calls, and shares their bytes. The room for a call is made before the shelf behind it is asked, so a
/// call that finds no memory fails and doesn't reach that one. It counts the failures of both.
#[derive(Drop)]
pub struct RecordingShelf<S: Shelf> {
    inner: S,
    /// What stood there when the record began.
    made: MemoryShelf,
    acts: Vec<Act>,
    failures: u64,
}

impl<S: Shelf> Model for RecordingShelf<S> {
    ghost use Rattle.std.specs.Prelude.{◌≡◌};
    ghost use Rattle.keep_cases.specs.Acts.{content_after, contents_after};
    ghost use Rattle.keep_shelf.specs.Shelved.{Shelved, coded_shelved};

    ghost Value = { Shelved };

    ghost coded = { coded_shelved };

    ghost view = { λ s. record {
      made = s.made.content;
      content = (S.shelved s.inner).content;
      failures = s.failures;
      calls = contents_after s.made.content s.acts.items;
    } };

    ghost invariant = { λ s. (S.shelved s.inner).content ≡ content_after s.made.content s.acts.items };
}

impl<S: Shelf> RecordingShelf<S> {
    /// The record of this shelf begins now. What stands there is read first, by a call for the keys and one for each.
    pub fn over(alloc: Global, inner: S) -> Result<RecordingShelf<S>, Fault>
        ensures { IfOk result (λ shelf. shelf ≡ stocked (S.shelved inner).content) }
    {
        let mut inner = inner;
        let made = read_all(alloc, &mut inner)?;
        Ok(RecordingShelf {
            inner,
            made,
            acts: Vec::new(alloc),
            failures: 0,
        })
    }

    /// How many calls didn't fail.
    pub fn calls(&self) -> usize
        ensures { result ≡ length self.now.calls }
    {
        self.acts.len()
    }

    /// How many calls failed since the record began. The count ends at 2^64 - 1.
    pub fn failures(&self) -> u64
        ensures { result ≡ self.now.failures }
    {
        self.failures
    }

    /// A new shelf in memory with what stood on this one after the first i calls that didn't fail. Where i is 0, it is
    /// what stood there when the record began.
    pub fn content_at(&self, i: usize) -> Result<MemoryShelf, AllocError>
        requires { i ≤ length self.now.calls }
        ensures content { IfOk result
            (λ shelf. slice_get (self.now.made ∷ self.now.calls) i ≡ Some shelf.content) }
        ensures made { IfOk result (λ shelf. shelf ≡ stocked shelf.content) }
    {
        match self.shelf_at(i) {
            Ok(shelf) => Ok(shelf.afresh()),
            Err(Fault) => Err(AllocError),
        }
    }

    /// What the first i acts left, on a shelf that has calls of its own.
    fn shelf_at(&self, i: usize) -> Result<MemoryShelf, Fault>
        requires { i ≤ length self.now.calls }
        ensures { IfOk result
            (λ shelf. slice_get (self.now.made ∷ self.now.calls) i ≡ Some shelf.content) }
    {
        perform_all(self.made.copy()?, &self.acts[..i])
    }

    /// Counts a call that failed.
    fn fail(&mut self) -> Fault
        ensures { self.new ≡ failed self.old }
    {
        self.failures = self.failures.saturating_add(1);
        Fault
    }

    #[tactic(auto, using(crate::proofs::Acting::acting))]
    fn try_read(&mut self, key: Key) -> Result<Option<Rope>, Fault>
        ensures found { IfOk result (λ found. found ≡ map.get self.old.content key) }
        ensures ok { OnOk result (self.new ≡ called self.old self.old.content) }
        ensures err { OnErr result (self.new ≡ self.old) }
    {
        self.acts.reserve(1)?;
        let found = self.inner.read(key)?;
        self.acts.push_reserved(Act::Looked);
        Ok(found)
    }

    #[tactic(auto, using(crate::proofs::Acting::acting))]
    fn try_write(&mut self, key: Key, bytes: &Rope) -> Result<(), Fault>
        ensures ok { OnOk result
            (self.new ≡ called self.old (map.insert self.old.content key bytes.now)) }
        ensures err { OnErr result (self.new ≡ self.old) }
    {
        self.acts.reserve(1)?;
        let noted = bytes.clone()?;
        self.inner.write(key, bytes)?;
        self.acts.push_reserved(Act::Wrote(key, noted));
        Ok(())
    }

    #[tactic(auto, using(crate::proofs::Acting::acting))]
    fn try_shift(&mut self, from: Key, to: Key) -> Result<(), Fault>
        requires filled { IsTrue (is_some (map.get self.old.content from)) }
        requires free { map.get self.old.content to ≡ None }
        ensures ok { OnOk result (self.new ≡ called self.old (shifted self.old.content from to)) }
        ensures err { OnErr result (self.new ≡ self.old) }
    {
        self.acts.reserve(1)?;
        self.inner.shift(from, to)?;
        self.acts.push_reserved(Act::Shifted(from, to));
        Ok(())
    }

    #[tactic(auto, using(crate::proofs::Acting::acting))]
    fn try_erase(&mut self, key: Key) -> Result<(), Fault>
        ensures ok { OnOk result (self.new ≡ called self.old (map.remove self.old.content key)) }
        ensures err { OnErr result (self.new ≡ self.old) }
    {
        self.acts.reserve(1)?;
        self.inner.erase(key)?;
        self.acts.push_reserved(Act::Erased(key));
        Ok(())
    }

    #[tactic(auto, using(crate::proofs::Acting::acting))]
    fn try_list(&mut self) -> Result<Vec<Key>, Fault>
        ensures listed { IfOk result (λ keys. keys.items ≡ map.keys self.old.content) }
        ensures ok { OnOk result (self.new ≡ called self.old self.old.content) }
        ensures err { OnErr result (self.new ≡ self.old) }
    {
        self.acts.reserve(1)?;
        let keys = self.inner.list()?;
        self.acts.push_reserved(Act::Looked);
        Ok(keys)
    }
}

impl<S: Shelf> Shelf for RecordingShelf<S> {
    ghost shelved = { λ s. s };

    fn read(&mut self, key: Key) -> Result<Option<Rope>, Fault> {
        match self.try_read(key) {
            Ok(found) => Ok(found),
            Err(Fault) => Err(self.fail()),
        }
    }

    fn write(&mut self, key: Key, bytes: &Rope) -> Result<(), Fault> {
        match self.try_write(key, bytes) {
            Ok(()) => Ok(()),
            Err(Fault) => Err(self.fail()),
        }
    }

    fn shift(&mut self, from: Key, to: Key) -> Result<(), Fault> {
        match self.try_shift(from, to) {
            Ok(()) => Ok(()),
            Err(Fault) => Err(self.fail()),
        }
    }

    fn erase(&mut self, key: Key) -> Result<(), Fault> {
        match self.try_erase(key) {
            Ok(()) => Ok(()),
            Err(Fault) => Err(self.fail()),
        }
    }

    fn list(&mut self) -> Result<Vec<Key>, Fault> {
        match self.try_list() {
            Ok(keys) => Ok(keys),
            Err(Fault) => Err(self.fail()),
        }
    }

    fn is_sure(&self) -> bool {
        self.inner.is_sure()
    }
}
