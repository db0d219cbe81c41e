ghost use Rattle.std.specs.Prelude.{◌≡◌, ◌≢◌, ◌<◌, IfErr, IfOk, OnErr, OnOk, Ok, Err, true};
ghost use Rattle.std.specs.FinMap as finite;
ghost use Rattle.std.specs.List.{All};
ghost use Rattle.keep_journal.specs.Opening.{IsOpen};
ghost use Rattle.keep_journal.specs.declared.request.Request.TheVariants.{Undo};
ghost use Rattle.keep_touch.specs.Mentions.{AreNoted};
ghost use Rattle.keep_moves.specs.Behind.{IsBehind};
ghost use Rattle.keep_view.specs.Shown.{shown_of};
ghost use Rattle.keep_ledger.specs.Ends.{Ends, FaultsAtMoves, FaultsLast, heard};
ghost use Rattle.keep_ledger.specs.OnShelf.{settled};
ghost use Rattle.keep_ledger.specs.Opened.{IsGivenBack, IsNotOpened, IsOpened};
ghost use Rattle.keep_ledger.specs.Reply.{Replies, state_after};
ghost use Rattle.keep_ledger.specs.Request.{IsFree};
ghost use Rattle.keep_ledger.specs.Stops.{EachCallReads, IsShown};
ghost use Rattle.keep_ledger.specs.Sums.{AreSums};

use crate::not_opened::NotOpened;
use crate::reply::Refusal;
use keep_catalog::{Hashing, LiveRepo, OneByOne};
use keep_hooks::Guard;
use keep_journal::{History, Request, Told};
use keep_moves::{Move, settle};
use keep_names::BlobId;
use keep_opening::OpenError;
use keep_repo::Repo;
use keep_shelf::{Fault, Shelf};
use keep_touch::Touch;
use keep_view::View;
use std::alloc::{AllocError, Global};
use std::marker::Model;

/// A repository under numbered changes, whose files stand on a shelf. Each call that changes it is lent the vetoes that
/// may refuse the event and the watches that are told of it, whose totals are sums over the events since each was
/// armed, and stay so.
///
/// The live repository and the history are in memory too. Where a call of the shelf fails after an event is in, the
/// moves that are left of it are due, and whatever changes the ledger next begins with them.
pub struct Ledger<S: Shelf> {
    pub(crate) alloc: Global,
    /// What the changes that can still be undone make of the opening.
    pub(crate) live: LiveRepo,
    pub(crate) history: History,
    /// Of each facet the committed changes that touch it.
    pub(crate) touch: Touch,
    /// The moves of the last event.
    pub(crate) moves: Vec<Move>,
    /// How many of them were made. The others are due.
    pub(crate) made: usize,
    pub(crate) shelf: S,
}

// One call drops it, where each `?` would else drop each part of it, which is long to prove.
impl<S: Shelf> Drop for Ledger<S> {
    fn drop(self) {
        let Ledger {
            alloc: _,
            live: _,
            history: _,
            touch: _,
            moves: _,
            made: _,
            shelf: _,
        } = self;
    }
}

impl<S: Shelf> Model for Ledger<S> {
    ghost use Rattle.std.specs.Prelude.{drop};
    ghost use Rattle.std.specs.Coded.{codes};
    ghost use Rattle.keep_repo.specs.Repository.{coded_repository};
    ghost use Rattle.keep_shelf.specs.Shelved.{coded_shelved};
    ghost use Rattle.keep_ledger.specs.OnShelf.{IsKept, OnShelf, ledger_on};

    ghost Value = { OnShelf };

    ghost coded = { Prim.hlevel (codes, coded_repository, coded_shelved) };

    ghost view = { λ l. ledger_on l.history.journal l.live (drop l.made l.moves.items) (S.shelved l.shelf) };

    ghost invariant = { λ l. IsKept l.history.journal l.live l.touch l.moves.items l.made (S.shelved l.shelf) };
}

impl<S: Shelf> Ledger<S> {
    /// Opens a shelf as what it says: the keys are listed and each file is read, and then the moves that were left of the
    /// last event are made.
    ///
    /// `BadEntry` where what stands there says nothing; `Fault` where one of those calls fails, which is the last one;
    /// `Memory` where there is none. The shelf is handed back then. But for `Fault` it was only read, and what stands
    /// there says what it said, if something.
    pub fn open(alloc: Global, shelf: S) -> Result<Ledger<S>, NotOpened<S>>
        ensures opened { IfOk result (λ ledger. IsOpened (S.shelved shelf) ledger) }
        ensures refused { IfErr result (λ given. IsNotOpened (S.shelved shelf) given.error) }
        ensures given { IfErr result (λ given. IsGivenBack (S.shelved shelf) given.error (S.shelved given.shelf)) }
    {
        Ledger::open_with(alloc, shelf, &mut OneByOne)
    }

    /// Opens a shelf as `open` does. What its kept changes add is hashed by this, the files of one entry together.
    pub fn open_with<H: Hashing>(
        alloc: Global,
        shelf: S,
        hashing: &mut H,
    ) -> Result<Ledger<S>, NotOpened<S>>
        ensures opened { IfOk result (λ ledger. IsOpened (S.shelved shelf) ledger) }
        ensures refused { IfErr result (λ given. IsNotOpened (S.shelved shelf) given.error) }
        ensures given { IfErr result (λ given. IsGivenBack (S.shelved shelf) given.error (S.shelved given.shelf)) }
    {
        let mut ledger = Ledger::read(alloc, shelf, hashing)?;
        match ledger.finish() {
            Ok(()) => Ok(ledger),
            Err(Fault) => Err(NotOpened {
                shelf: ledger.into_shelf(),
                error: OpenError::Fault,
            }),
        }
    }

    /// The shelf. All else is let go.
    fn into_shelf(self) -> S
        ensures { S.shelved result ≡ self.shelf }
    {
        let Ledger {
            alloc: _,
            live: _,
            history: _,
            touch: _,
            moves: _,
            made: _,
            shelf,
        } = self;
        shelf
    }

    /// The present repository, with the bytes shared.
    pub fn repo(&self) -> Result<Repo, AllocError>
        ensures { IfOk result (λ repo. repo ≡ self.now.state.live) }
    {
        self.live.repo().copy()
    }

    /// The present repository, lent.
    pub fn live(&self) -> &Repo
        ensures { result.now ≡ self.now.state.live }
    {
        self.live.repo()
    }

    /// Hands in each blob of the live repository that wasn't hashed before, to be hashed, if its files were read. Where
    /// memory runs out, some are. What was hashed is remembered.
    pub fn hash_all<H: Hashing>(&mut self, hashing: &mut H)
        ensures { self.new ≡ self.old }
    {
        self.live.hash_all(hashing);
    }

    /// Hands in these blobs alone, as `hash_all` does all: each where an index lists it and it wasn't hashed before.
    pub fn hash_blobs<H: Hashing>(&mut self, blobs: &[BlobId], hashing: &mut H)
        ensures { self.new ≡ self.old }
    {
        self.live.hash_blobs(blobs, hashing);
    }

    /// The live repository, the snapshots that it knows, and the number of the last event. It
    /// takes no memory.
    pub fn view(&self) -> View<'_>
        ensures { let b = self.now.state in result ≡ shown_of b.opening b.events b.live }
    {
        View::of(&self.live, &self.history)
    }

    /// The events. They are legal, no change among them touches more facets than it may, and those in force make
    /// the live repository of the opening. The shelf is behind them by the moves that are due, and says them all the
    /// same.
    pub fn history(&self) -> &History
        ensures events { result.now.journal ≡ self.now.state.events }
        ensures open { let b = self.now.state in IsOpen b.opening b.events b.live }
        ensures behind { let b = self.now.state in
            IsBehind b.events b.live self.now.due (finite.get self.now.shelf.content) }
        ensures shown { IsShown self.now }
    {
        &self.history
    }

    /// The shelf, lent.
    pub fn shelf(&self) -> &S
        ensures { S.shelved result.now ≡ self.now.shelf }
    {
        &self.shelf
    }

    /// Does what is asked, or refuses it. First the moves that are due are made, whatever is asked. Then the first of
    /// these that holds is the refusal, and nothing else is changed:
    ///
    /// - of a commit `Malformed`, `Full`, `Stale`, `Vetoed`, `Unmet`, `Memory`, `Fault`;
    /// - of an undo `Unknown`, `Final`, `NotInForce`, `Full`, `LeanedOn`, `Memory`, `Fault`: no veto is asked;
    /// - of a redo `Unknown`, `Final`, `InForce`, `Full`, `Vetoed`, `Blocked`, `Memory`, `Fault`;
    /// - of an emptying `Unknown`, `Final`, `Full`, `Vetoed`, `Memory`, `Fault`.
    ///
    /// Where there is a veto, want of memory may be found before `Vetoed` and what stands behind it. `Fault` is
    /// answered where the shelf fails at a move that was due, at a file of the trash that comes back, or at the event's
    /// entry; where it fails after that, the event is in, the watches are told of it, and the answer is `Unsettled`.
    pub fn ask<V: Guard>(&mut self, guard: &mut V, request: Request) -> Result<Told, Refusal>
        requires sums { AreSums self.old.state.events (V.armed guard.old).watches (V.tallies guard.old) }
        ensures reply { result ≢ Err Refusal.Fault →
            Replies self.old.state (V.armed guard.old).vetoes request (heard self.old.state request result) }
        ensures after { self.new.state ≡ state_after self.old.state request (heard self.old.state request result) }
        ensures ends { Ends self.old request result self.new }
        ensures faults { FaultsLast self.old (V.armed guard.old).vetoes request result self.new }
        ensures stops { EachCallReads self.old request self.new }
        ensures open { let b = self.old.state in IsOpen b.opening b.events b.live }
        ensures hooks { V.armed guard.new ≡ V.armed guard.old }
        ensures sums { AreSums self.new.state.events (V.armed guard.new).watches (V.tallies guard.new) }
    {
        self.ask_by(guard, request, false)
    }

    /// Takes change n back, as `ask` does, where it is known that nothing leans on it: no later change is looked at.
    pub fn take_back<V: Guard>(&mut self, guard: &mut V, n: u64) -> Result<Told, Refusal>
        requires sums { AreSums self.old.state.events (V.armed guard.old).watches (V.tallies guard.old) }
        requires alone { IsFree self.old.state (Undo n) }
        ensures reply { result ≢ Err Refusal.Fault →
            Replies self.old.state (V.armed guard.old).vetoes (Undo n) (heard self.old.state (Undo n) result) }
        ensures after { self.new.state ≡ state_after self.old.state (Undo n) (heard self.old.state (Undo n) result) }
        ensures ends { Ends self.old (Undo n) result self.new }
        ensures faults { FaultsLast self.old (V.armed guard.old).vetoes (Undo n) result self.new }
        ensures stops { EachCallReads self.old (Undo n) self.new }
        ensures open { let b = self.old.state in IsOpen b.opening b.events b.live }
        ensures hooks { V.armed guard.new ≡ V.armed guard.old }
        ensures sums { AreSums self.new.state.events (V.armed guard.new).watches (V.tallies guard.new) }
    {
        self.ask_by(guard, Request::Undo(n), true)
    }

    /// Makes the moves that are due, in their order, and lets them go. Where a call fails, the others stay due.
    pub(crate) fn finish(&mut self) -> Result<(), Fault>
        ensures ok { OnOk result (self.new ≡ settled self.old) }
        ensures err { OnErr result (FaultsAtMoves self.old self.new) }
        ensures shown { IsShown self.old }
        ensures open { let b = self.old.state in IsOpen b.opening b.events b.live }
    {
        settle(&mut self.shelf, self.moves.as_slice(), &mut self.made)?;
        self.moves = Vec::new(self.alloc);
        self.made = 0;
        Ok(())
    }

    /// For each facet the changes that touch it, of all that were committed.
    pub fn touch(&self) -> &Touch
        ensures { AreNoted result.now self.now.state.events }
    {
        &self.touch
    }
}
