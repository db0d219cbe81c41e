ghost use Rattle.keep_hooks.specs.Rules.{tallies_of};
ghost use Rattle.keep_book.specs.Names.{HaveNoNameTwice};

use crate::hooks::{Hooks, has_veto, has_watch};
use crate::not_armed::NotArmed;
use keep_catalog::{Hashing, OneByOne};
use keep_change::Planned;
use keep_hooks::{ArmedWatch, Veto, Watch};
use keep_ledger::{Ledger, NotOpened, Refusal, Request, Told};
use keep_names::BlobId;
use keep_shelf::Shelf;
use std::alloc::{AllocError, Global};

/// A ledger on a shelf, with the vetoes and watches that are armed over it. The total of a watch is the sum of its
/// measure over the events since it was armed: each call that changes a book asks for that, and leaves it so. No name
/// is armed twice.
#[derive(Drop)]
pub struct Book<S: Shelf> {
    pub(crate) alloc: Global,
    pub(crate) ledger: Ledger<S>,
    pub(crate) hooks: Hooks,
}

// What changes a book requires of it what holds of every book that was opened and changed by calls alone.
impl<S: Shelf> Book<S> {
    ghost use Rattle.std.specs.Prelude.{◌≡◌, ◌≢◌, ◌<◌, [], None, Err, false, string_bytes, IfErr, IfOk, IsSome, IsTrue, OnOk};
    ghost use Rattle.keep_journal.specs.History.{change_of, length_of};
    ghost use Rattle.keep_journal.specs.Kept.{is_kept};
    ghost use Rattle.keep_hooks.specs.Rules.{armed_at, rule_of, watch_of};
    ghost use Rattle.keep_journal.specs.Opening.{IsOpen};
    ghost use Rattle.keep_ledger.specs.Ends.{heard};
    ghost use Rattle.keep_ledger.specs.LedgerState.{JustCommitted, LedgerState};
    ghost use Rattle.keep_ledger.specs.Limits.{event_limit};
    ghost use Rattle.keep_ledger.specs.Opened.{IsGivenBack, IsNotOpened, IsOpened};
    ghost use Rattle.keep_ledger.specs.Reply.{Restores, TakesBack};
    ghost use Rattle.keep_ledger.specs.Sums.{sums_of};
    ghost use Rattle.keep_journal.specs.declared.request.Request.TheVariants as request;
    ghost use Rattle.keep_book.specs.Armed.{Responds, HasSums, IsUnchanged, hook_of, hooks_of, is_double, ledger_of, on_shelf, with_veto, with_watch};
    ghost use Rattle.keep_book.specs.Names.{is_armed};

    /// Opens a shelf as what it says, without vetoes and watches: `Ledger::open`, which hands it back with the same errors.
    pub fn open(alloc: Global, shelf: S) -> Result<Book<S>, NotOpened<S>>
        ensures opened { IfOk result (λ book. IsOpened (S.shelved shelf) (on_shelf book)) }
        ensures hooks { IfOk result (λ book. hooks_of book ≡ record { vetoes = []; watches = [] }) }
        ensures sums { IfOk result (λ book. HasSums book) }
        ensures refused { IfErr result (λ given. IsNotOpened (S.shelved shelf) given.error) }
        ensures given { IfErr result (λ given. IsGivenBack (S.shelved shelf) given.error (S.shelved given.shelf)) }
    {
        Book::open_with(alloc, shelf, &mut OneByOne)
    }

    /// `Ledger::open_with`, without vetoes and watches.
    pub fn open_with<H: Hashing>(
        alloc: Global,
        shelf: S,
        hashing: &mut H,
    ) -> Result<Book<S>, NotOpened<S>>
        ensures opened { IfOk result (λ book. IsOpened (S.shelved shelf) (on_shelf book)) }
        ensures hooks { IfOk result (λ book. hooks_of book ≡ record { vetoes = []; watches = [] }) }
        ensures sums { IfOk result (λ book. HasSums book) }
        ensures refused { IfErr result (λ given. IsNotOpened (S.shelved shelf) given.error) }
        ensures given { IfErr result (λ given. IsGivenBack (S.shelved shelf) given.error (S.shelved given.shelf)) }
    {
        let ledger = Ledger::open_with(alloc, shelf, hashing)?;
        Ok(Book {
            alloc,
            ledger,
            hooks: Hooks {
                vetoes: Vec::new(alloc),
                watches: Vec::new(alloc),
            },
        })
    }

    /// The repository under its changes.
    pub fn ledger(&self) -> &Ledger<S>
        ensures { result.now ≡ on_shelf self.now }
    {
        &self.ledger
    }

    /// `Ledger::hash_all`.
    pub fn hash_all<H: Hashing>(&mut self, hashing: &mut H)
        requires { HasSums self.old }
        ensures { IsUnchanged self.old self.new }
    {
        self.ledger.hash_all(hashing);
    }

    /// `Ledger::hash_blobs`.
    pub fn hash_blobs<H: Hashing>(&mut self, blobs: &[BlobId], hashing: &mut H)
        requires { HasSums self.old }
        ensures { IsUnchanged self.old self.new }
    {
        self.ledger.hash_blobs(blobs, hashing);
    }

    /// Whether a veto or a watch of this name is armed. No two of them have one name.
    pub fn is_armed(&self, name: &str) -> bool
        ensures exact { result ≡ is_armed name.now (hooks_of self.now) }
        ensures once { HaveNoNameTwice (hooks_of self.now) }
    {
        has_veto(self.hooks.vetoes.as_slice(), name)
            || has_watch(self.hooks.watches.as_slice(), name)
    }

    /// Arms the veto, behind the others.
    pub fn add_veto(&mut self, veto: Veto) -> Result<(), NotArmed<Veto>>
        requires { HasSums self.old }
        ensures single { OnOk result (is_armed (string_bytes veto.name) (hooks_of self.old) ≡ false) }
        ensures double { IfErr result (λ refusal.
            is_double refusal ≡ is_armed (string_bytes veto.name) (hooks_of self.old)) }
        ensures handed { IfErr result (λ refusal. hook_of refusal ≡ veto) }
        ensures armed { OnOk result (hooks_of self.new ≡ with_veto (rule_of veto) (hooks_of self.old)) }
        ensures refused { IfErr result (λ refusal. hooks_of self.new ≡ hooks_of self.old) }
        ensures ledger { on_shelf self.new ≡ on_shelf self.old }
        ensures sums { HasSums self.new }
    {
        if self.is_armed(veto.name.as_str()) {
            return Err(NotArmed::DoubleName(veto));
        }
        if let Err(AllocError) = self.hooks.vetoes.reserve(1) {
            return Err(NotArmed::Memory(veto));
        }
        self.hooks.vetoes.push_reserved(veto);
        Ok(())
    }

    /// Arms the watch, behind the others. It counts the events from now on.
    pub fn add_watch(&mut self, watch: Watch) -> Result<(), NotArmed<Watch>>
        requires { HasSums self.old }
        ensures single { OnOk result (is_armed (string_bytes watch.name) (hooks_of self.old) ≡ false) }
        ensures double { IfErr result (λ refusal.
            is_double refusal ≡ is_armed (string_bytes watch.name) (hooks_of self.old)) }
        ensures handed { IfErr result (λ refusal. hook_of refusal ≡ watch) }
        ensures armed { let since = length_of (ledger_of self.old).events in
            OnOk result (hooks_of self.new ≡ with_watch (armed_at since (watch_of watch)) (hooks_of self.old)) }
        ensures refused { IfErr result (λ refusal. hooks_of self.new ≡ hooks_of self.old) }
        ensures ledger { on_shelf self.new ≡ on_shelf self.old }
        ensures sums { HasSums self.new }
    {
        if self.is_armed(watch.name()) {
            return Err(NotArmed::DoubleName(watch));
        }
        if let Err(AllocError) = self.hooks.watches.reserve(1) {
            return Err(NotArmed::Memory(watch));
        }
        let since = self.ledger.history().length();
        self.hooks
            .watches
            .push_reserved(ArmedWatch::new(watch, since));
        Ok(())
    }

    /// The watches in the order in which they were armed, each with its total: the sum of its measure over the events
    /// since it was.
    pub fn totals(&self) -> &[ArmedWatch]
        requires { HasSums self.now }
        ensures { tallies_of result.now ≡ sums_of (ledger_of self.now).events (hooks_of self.now).watches }
    {
        self.hooks.watches.as_slice()
    }

    /// Does what is asked, or refuses it: `Ledger::ask`, with the vetoes and watches that are armed.
    pub fn ask(&mut self, request: Request) -> Result<Told, Refusal>
        requires { HasSums self.old }
        ensures responds { Responds self.old request result self.new }
        ensures open { let b = ledger_of self.old in IsOpen b.opening b.events b.live }
    {
        self.ledger.ask(&mut self.hooks, request)
    }

    /// Makes a change, unless a veto refuses it, and tells the watches.
    pub fn commit(&mut self, planned: Planned) -> Result<Told, Refusal>
        requires { HasSums self.old }
        ensures responds { Responds self.old (request.Commit planned) result self.new }
        ensures made { let before = ledger_of self.old in
            IfOk (heard before (request.Commit planned) result)
            (λ told. JustCommitted before told.number (ledger_of self.new)) }
    {
        self.ask(Request::Commit(planned))
    }

    /// Takes the change back, and tells the watches.
    pub fn undo(&mut self, n: u64) -> Result<Told, Refusal>
        requires { HasSums self.old }
        ensures responds { Responds self.old (request.Undo n) result self.new }

        // A change in force that isn't final is taken back where the others, in their order, can be
        // made of the opening, and what they make of it is left; else the first that can't is named.
        ensures exact { let before = ledger_of self.old in
            result ≢ Err Refusal.Fault → IsSome (change_of before.events n) → IsTrue (is_kept before.events n) →
            length_of before.events < event_limit →
            TakesBack before n (heard before (request.Undo n) result) (ledger_of self.new).live }

        // Nothing can lean on a commit that was just accepted, and its undo leaves what was there.
        ensures restores { (before : LedgerState) → JustCommitted before n (ledger_of self.old) →
            Restores before.live (heard (ledger_of self.old) (request.Undo n) result) (ledger_of self.new).live }
    {
        self.ask(Request::Undo(n))
    }

    /// Makes the change again, at its place, unless a veto refuses it, and tells the watches.
    pub fn redo(&mut self, n: u64) -> Result<Told, Refusal>
        requires { HasSums self.old }
        ensures responds { Responds self.old (request.Redo n) result self.new }
    {
        self.ask(Request::Redo(n))
    }

    /// Makes all changes up to n final, and so moves the opening over those in force, unless a veto refuses it, and
    /// tells the watches.
    pub fn empty(&mut self, n: u64) -> Result<Told, Refusal>
        requires { HasSums self.old }
        ensures responds { Responds self.old (request.Empty n) result self.new }
        ensures live { (ledger_of self.new).live ≡ (ledger_of self.old).live }
    {
        self.ask(Request::Empty(n))
    }
}
