ghost use Rattle.std.specs.Prelude.{◌≡◌, ◌==◌, ◌≤◌, ℕ, IfOk, IsTrue, OnOk, OnErr, is_ok, is_some, nat_le};
ghost use Rattle.std.specs.FinMap as map;
ghost use Rattle.keep_shelf.specs.Shelved.{called, failed, risen, shifted};

use crate::call_failures::Plan;
use crate::key::Key;
use crate::shelf::{Fault, Shelf};
use keep_rope::Rope;

/// A shelf that fails when it is told to, and is otherwise the one that it stands before. It counts the failures of
/// both.
#[derive(Debug, Drop)]
pub struct FailingShelf<S> {
    inner: S,
    plan: Plan,
    failures: u64,
}

impl<S: Shelf> FailingShelf<S> {
    ghost use Rattle.keep_shelf.specs.Failing.{inner_of, is_chosen, outside};

    /// Of the calls from now on the k-th fails, and no other. At 0 none does.
    pub fn once(inner: S, k: u64) -> FailingShelf<S>
        ensures inner { inner_of result ≡ inner }
        ensures none_yet { (outside S.shelved result).failures ≡ 0 }
        ensures chosen { (n : ℕ) → 1 ≤ n → is_chosen result n ≡ (n == k) }
    {
        FailingShelf {
            inner,
            plan: Plan::Once(k),
            failures: 0,
        }
    }

    /// Of the calls from now on the k-th fails, and all that follow it.
    pub fn onward(inner: S, k: u64) -> FailingShelf<S>
        ensures inner { inner_of result ≡ inner }
        ensures none_yet { (outside S.shelved result).failures ≡ 0 }
        ensures chosen { (n : ℕ) → 1 ≤ n → is_chosen result n ≡ nat_le k n }
    {
        FailingShelf {
            inner,
            plan: Plan::Onward(k),
            failures: 0,
        }
    }

    /// How many calls failed since this shelf was made. The count ends at 2^64 - 1.
    pub fn failures(&self) -> u64
        ensures { result ≡ (outside S.shelved self.now).failures }
    {
        self.failures
    }

    /// The shelf that it stands before, lent.
    pub fn inner(&self) -> &S
        ensures { result.now ≡ inner_of self.now }
    {
        &self.inner
    }

    pub fn into_inner(self) -> S
        ensures { result ≡ inner_of self }
    {
        self.inner
    }

    /// Counts a call that failed.
    fn fail(&mut self) -> Fault
        ensures { self.new ≡ record self.old { failures = risen self.old.failures } }
    {
        self.failures = self.failures.saturating_add(1);
        Fault
    }
}

impl<S: Shelf> Shelf for FailingShelf<S> {
    ghost use Rattle.keep_shelf.specs.Failing.{TakesTurn, outside};

    ghost shelved = { outside S.shelved };

    fn read(&mut self, key: Key) -> Result<Option<Rope>, Fault>
        ensures found { let before = outside S.shelved self.old in
            IfOk result (λ found. found ≡ map.get before.content key) }
        ensures ok { let before = outside S.shelved self.old in
            OnOk result (outside S.shelved self.new ≡ called before before.content) }
        ensures err { OnErr result
            (outside S.shelved self.new ≡ failed (outside S.shelved self.old)) }
        ensures turn { TakesTurn S.shelved self.old self.new (is_ok result) }
    {
        if self.plan.advance() {
            return Err(self.fail());
        }
        match self.inner.read(key) {
            Ok(found) => Ok(found),
            Err(Fault) => Err(self.fail()),
        }
    }

    fn write(&mut self, key: Key, bytes: &Rope) -> Result<(), Fault>
        ensures ok { let before = outside S.shelved self.old in
            OnOk result (outside S.shelved self.new
            ≡ called before (map.insert before.content key bytes.now)) }
        ensures err { OnErr result
            (outside S.shelved self.new ≡ failed (outside S.shelved self.old)) }
        ensures turn { TakesTurn S.shelved self.old self.new (is_ok result) }
    {
        if self.plan.advance() {
            return Err(self.fail());
        }
        match self.inner.write(key, bytes) {
            Ok(()) => Ok(()),
            Err(Fault) => Err(self.fail()),
        }
    }

    fn shift(&mut self, from: Key, to: Key) -> Result<(), Fault>
        requires filled { IsTrue (is_some (map.get (outside S.shelved self.old).content from)) }
        requires free { map.get (outside S.shelved self.old).content to ≡ None }
        ensures ok { let before = outside S.shelved self.old in
            OnOk result (outside S.shelved self.new
            ≡ called before (shifted before.content from to)) }
        ensures err { OnErr result
            (outside S.shelved self.new ≡ failed (outside S.shelved self.old)) }
        ensures turn { TakesTurn S.shelved self.old self.new (is_ok result) }
    {
        if self.plan.advance() {
            return Err(self.fail());
        }
        match self.inner.shift(from, to) {
            Ok(()) => Ok(()),
            Err(Fault) => Err(self.fail()),
        }
    }

    fn erase(&mut self, key: Key) -> Result<(), Fault>
        ensures ok { let before = outside S.shelved self.old in
            OnOk result (outside S.shelved self.new
            ≡ called before (map.remove before.content key)) }
        ensures err { OnErr result
            (outside S.shelved self.new ≡ failed (outside S.shelved self.old)) }
        ensures turn { TakesTurn S.shelved self.old self.new (is_ok result) }
    {
        if self.plan.advance() {
            return Err(self.fail());
        }
        match self.inner.erase(key) {
            Ok(()) => Ok(()),
            Err(Fault) => Err(self.fail()),
        }
    }

    fn list(&mut self) -> Result<Vec<Key>, Fault>
        ensures listed { let before = outside S.shelved self.old in
            IfOk result (λ keys. keys.items ≡ map.keys before.content) }
        ensures ok { let before = outside S.shelved self.old in
            OnOk result (outside S.shelved self.new ≡ called before before.content) }
        ensures err { OnErr result
            (outside S.shelved self.new ≡ failed (outside S.shelved self.old)) }
        ensures turn { TakesTurn S.shelved self.old self.new (is_ok result) }
    {
        if self.plan.advance() {
            return Err(self.fail());
        }
        match self.inner.list() {
            Ok(keys) => Ok(keys),
            Err(Fault) => Err(self.fail()),
        }
    }

    fn is_sure(&self) -> bool {
        self.inner.is_sure()
    }
}
