ghost use Rattle.std.specs.Prelude.{◌≡◌, ◌+◌, ◌<◌, ◌≤◌, length, true, IfErr, IfOk};
ghost use mathlib.Core.List.{IsPrefix};
ghost use Rattle.keep_ledger.specs.Sums.{AreSums};
ghost use Rattle.keep_journal.specs.declared.request.Request.TheVariants as request;
ghost use Rattle.keep_pages.specs.Histories.{IsLegal};
ghost use Rattle.keep_register.specs.Asked.{counted_after};
ghost use Rattle.keep_crew.specs.Answered.{IsAnswered, has_event};
ghost use Rattle.keep_desk.specs.Cascade.{IsTakenBack};
ghost use Rattle.keep_desk.specs.Closed.{IsClosed, keeper_of};
ghost use Rattle.keep_register.specs.Known.{AreFresh};

use crate::answers::NotOpened;
use crate::first_passes::{passes_of, press_of};
use crate::locked::Locked;
use crate::taken_back::TakenBack;
use keep_change::Planned;
use keep_chronicle::Opened;
use keep_crew::DeskError;
use keep_ledger::{Request, Told};
use keep_register::{Keeper, Naming, NoPage, Pass, Register, Shown};
use std::alloc::Global;
use std::marker::PhantomData;
use std::sync::ledger::Blank;
use std::sync::{Mutex, Wait};

/// A book under a lock, whose pages are published: views take no lock.
///
/// It carries the type of what is locked, so that `view` stands where nothing that waits is in sight.
pub struct Desk<B: Naming, L> {
    pub(crate) locked: Mutex<L>,
    of: PhantomData<B>,
}

impl<B: Naming, L> Desk<B, L> {
    /// Shows the pass what is published now. It takes no lock, and waits for nobody.
    pub fn view<'a>(&self, pass: &'a mut Pass<B>) -> Result<Shown<'a, B>, NoPage>
        ensures same { IfOk result (λ shown. shown.pass.ghost_name ≡ pass.entry.ghost_name) }
        ensures reads { IfOk result (λ shown. shown.pass.now.shown ≡ true) }
        ensures begins { IfOk result (λ shown. IsPrefix pass.old.seen shown.pass.now.seen) }
        ensures legal { IfOk result (λ shown. IsLegal B.hooks.vetoes B.opening shown.pass.now.seen) }
        ensures counted { IfOk result (λ shown. shown.pass.now.counted ≡ pass.old.counted) }
    {
        Shown::of(pass)
    }
}

impl<B: Naming, R: Wait + Drop, K: Keeper> Desk<B, Locked<B, R, K>> {
    /// Puts the book under a lock, and makes so many passes. The list of events and the counts are new.
    pub fn open(
        alloc: Global,
        rt: R,
        keeper: K,
        opened: Opened,
        blank: Blank,
        passes: usize,
    ) -> Result<(Self, Vec<Pass<B>>), NotOpened<K>>
        requires history { opened.sight.book ≡ B.book }
        requires opening { K.ledger keeper ≡ B.opening }
        requires hooks { K.hooks keeper ≡ B.hooks }
        requires sums { AreSums (K.ledger keeper).events (K.hooks keeper).watches (K.tallies keeper) }
        requires counts { (blank.name ≡ B.name) × (blank.parts ≡ B.parts) × (blank.parts ≡ passes) }
        requires passes { (0 < passes) × (passes ≤ 64) }
        ensures long { IfOk result (λ made. length made.1.items ≡ passes) }
        ensures fresh { IfOk result (λ made. AreFresh made.1.items) }
        ensures handed { IfErr result (λ refusal. keeper_of refusal ≡ keeper) }
    {
        let at = keeper.history().length();
        let Ok(press) = press_of::<B, R, K>(alloc, rt, &keeper, &opened.sight, passes) else {
            return Err(NotOpened::Memory(keeper));
        };
        let (counts, mut rest) = blank.open::<B>();
        match passes_of(alloc, &press, &opened.sight, at, &mut rest, passes) {
            Ok(made) => {
                let register = Register::new(keeper, opened, counts);
                let locked = Locked::new(alloc, register, press, rest);
                let desk = Desk {
                    locked: Mutex::new(locked),
                    of: PhantomData,
                };
                Ok((desk, made))
            }
            Err(wanting) => Err(NotOpened::without(wanting, keeper)),
        }
    }

    /// Makes a change, as the book does: one that may be committed by who has seen what the pass has.
    pub fn commit<W: Wait>(
        &self,
        rt: &W,
        pass: &mut Pass<B>,
        planned: Planned,
    ) -> Result<Told, DeskError>
        requires { B.allows pass.old.seen planned }
        ensures answered { IsAnswered B.hooks.vetoes B.opening (request.Commit planned) pass.old pass.new result }
        ensures begins { IsPrefix pass.old.seen pass.new.seen }
        ensures legal { IsLegal B.hooks.vetoes B.opening pass.new.seen }
        ensures counted { pass.new.counted ≡ counted_after (has_event result) pass.old.counted }
        ensures published { IfOk result (λ _. pass.new.read ≡ pass.new.seen) }
    {
        self.locked.lock(rt).change(pass, Request::Commit(planned))
    }

    /// Takes the change back.
    pub fn undo<W: Wait>(&self, rt: &W, pass: &mut Pass<B>, n: u64) -> Result<Told, DeskError>
        ensures answered { IsAnswered B.hooks.vetoes B.opening (request.Undo n) pass.old pass.new result }
        ensures begins { IsPrefix pass.old.seen pass.new.seen }
        ensures legal { IsLegal B.hooks.vetoes B.opening pass.new.seen }
        ensures counted { pass.new.counted ≡ counted_after (has_event result) pass.old.counted }
        ensures published { IfOk result (λ _. pass.new.read ≡ pass.new.seen) }
    {
        self.locked.lock(rt).change(pass, Request::Undo(n))
    }

    /// Takes the change back with all that leans on it, from the greatest number down, each by an undo of its own that
    /// is published before the next is asked for. No other pass can ask in between.
    ///
    /// Where an undo is refused or late, or its change is left unsettled, no more are asked for. `LeanedOn` is no
    /// refusal of any: what leans on a change is taken back before it.
    pub fn undo_with<W: Wait>(&self, rt: &W, pass: &mut Pass<B>, n: u64) -> TakenBack
        ensures taken_back { IsTakenBack B.hooks.vetoes B.opening n pass.old pass.new result }
        ensures begins { IsPrefix pass.old.seen pass.new.seen }
        ensures legal { IsLegal B.hooks.vetoes B.opening pass.new.seen }
        ensures counted { pass.new.counted ≡ pass.old.counted + length result.numbers.items }
    {
        self.locked.lock(rt).undo_with(pass, n)
    }

    /// Makes the change again, at its place.
    pub fn redo<W: Wait>(&self, rt: &W, pass: &mut Pass<B>, n: u64) -> Result<Told, DeskError>
        ensures answered { IsAnswered B.hooks.vetoes B.opening (request.Redo n) pass.old pass.new result }
        ensures begins { IsPrefix pass.old.seen pass.new.seen }
        ensures legal { IsLegal B.hooks.vetoes B.opening pass.new.seen }
        ensures counted { pass.new.counted ≡ counted_after (has_event result) pass.old.counted }
        ensures published { IfOk result (λ _. pass.new.read ≡ pass.new.seen) }
    {
        self.locked.lock(rt).change(pass, Request::Redo(n))
    }

    /// Makes all changes up to n final.
    pub fn empty<W: Wait>(&self, rt: &W, pass: &mut Pass<B>, n: u64) -> Result<Told, DeskError>
        ensures answered { IsAnswered B.hooks.vetoes B.opening (request.Empty n) pass.old pass.new result }
        ensures begins { IsPrefix pass.old.seen pass.new.seen }
        ensures legal { IsLegal B.hooks.vetoes B.opening pass.new.seen }
        ensures counted { pass.new.counted ≡ counted_after (has_event result) pass.old.counted }
        ensures published { IfOk result (λ _. pass.new.read ≡ pass.new.seen) }
    {
        self.locked.lock(rt).change(pass, Request::Empty(n))
    }

    /// Takes the passes in, and gives the book back. Pages that are still read are waited for. Where a request was
    /// answered by `Fault` and the book's shelf can't be told, its event may be in.
    pub fn close(self, passes: Vec<Pass<B>>) -> K
        ensures closed { IsClosed B.allows B.hooks.vetoes B.opening B.parts passes.items (K.ledger result) }
        ensures hooks { K.hooks result ≡ B.hooks }
        ensures sums { AreSums (K.ledger result).events (K.hooks result).watches (K.tallies result) }
    {
        let Desk { locked, of: _ } = self;
        locked.into_inner().close(passes)
    }
}
