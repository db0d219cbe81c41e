ghost use Rattle.std.specs.Prelude.{◌≡◌, ◌≢◌, ℕ, Err};
ghost use Rattle.keep_hooks.specs.Guards.{HooksData, Tally};
ghost use Rattle.keep_journal.specs.Opening.{IsOpen};
ghost use Rattle.keep_ledger.specs.Ends.{failures_after, heard};
ghost use Rattle.keep_ledger.specs.Reply.{Replies, about, state_after};
ghost use Rattle.keep_ledger.specs.Sums.{AreSums};
ghost use Rattle.keep_touch.specs.Taken.{AreTaken};
ghost use Rattle.keep_book.specs.Cascade.{RefusesOrGives, taken_refusal};

use keep_book::Book;
use keep_journal::History;
use keep_ledger::{Refusal, Request, Told};
use keep_repo::Repo;
use keep_shelf::Shelf;

/// What answers requests and keeps the events that they make, as a book does.
///
/// A desk is generic over it: a book has stored questions in it, and no fact can tie those to a desk's name.
pub trait Keeper: Drop + Send {
    ghost use Rattle.std.specs.Prelude.{ℕ, List};
    ghost use Rattle.keep_hooks.specs.Guards.{HooksData, Tally};
    ghost use Rattle.keep_ledger.specs.LedgerState.{LedgerState};

    /// The opening, the events and the live repository.
    ghost ledger: { Self → LedgerState };

    /// The vetoes and watches that are armed.
    ghost hooks: { Self → HooksData };

    /// The watches with their totals.
    ghost tallies: { Self → List Tally };

    /// How often the shelf failed, up to the last value of that count.
    ghost failures: { Self → ℕ };

    fn history(&self) -> &History
        ensures events { result.now.journal ≡ (ledger self.now).events }
        ensures open { let b = ledger self.now in IsOpen b.opening b.events b.live };

    fn live(&self) -> &Repo
        ensures { result.now ≡ (ledger self.now).live };

    /// The numbers of the changes that have to be taken back with change n, from the greatest down.
    fn taken_with(&self, n: u64) -> Result<Vec<u64>, Refusal>
        ensures { let events = (ledger self.now).events in
            RefusesOrGives (taken_refusal events n) (λ numbers. AreTaken events n numbers.items) result };

    /// Does what is asked, or refuses it.
    fn ask(&mut self, request: Request) -> Result<Told, Refusal>
        requires { AreSums (ledger self.old).events (hooks self.old).watches (tallies self.old) }
        ensures replies { result ≢ Err Refusal.Fault →
            Replies (ledger self.old) (hooks self.old).vetoes request (heard (ledger self.old) request result) }
        ensures ledger { ledger self.new
            ≡ state_after (ledger self.old) request (heard (ledger self.old) request result) }
        ensures unsettled { (n : ℕ) → result ≡ Err (Refusal.Unsettled n) → n ≡ about (ledger self.old).events request }
        ensures failures { failures self.new ≡ failures_after result (failures self.old) }
        ensures hooks { hooks self.new ≡ hooks self.old }
        ensures sums { AreSums (ledger self.new).events (hooks self.new).watches (tallies self.new) };
}

impl<S: Shelf + Send> Keeper for Book<S> {
    ghost use Rattle.keep_hooks.specs.Rules.{tallies_of};
    ghost use Rattle.keep_book.specs.Armed.{hooks_of, ledger_of, on_shelf};

    ghost ledger = { λ book. ledger_of book };

    ghost hooks = { λ book. hooks_of book };

    ghost tallies = { λ book. tallies_of book.hooks.watches.items };

    ghost failures = { λ book. (on_shelf book).shelf.failures };

    fn history(&self) -> &History {
        self.ledger().history()
    }

    fn live(&self) -> &Repo {
        self.ledger().live()
    }

    fn taken_with(&self, n: u64) -> Result<Vec<u64>, Refusal> {
        Book::taken_with(self, n)
    }

    fn ask(&mut self, request: Request) -> Result<Told, Refusal> {
        Book::ask(self, request)
    }
}
