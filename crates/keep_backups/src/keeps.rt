ghost use Rattle.std.specs.Prelude.{◌≡◌, IfErr, OnOk};
ghost use Rattle.keep_acts.specs.Shown.{shown_by};
ghost use Rattle.keep_journal.specs.declared.request.Request.TheVariants.{Commit};
ghost use Rattle.keep_ledger.specs.Made.{with_event};
ghost use Rattle.keep_ledger.specs.Sums.{AreSums};

use keep_acts::{Made, ask};
use keep_book::Book;
use keep_catalog::Hashing;
use keep_change::Planned;
use keep_ledger::{Refusal, Request};
use keep_names::BlobId;
use keep_shelf::Shelf;
use keep_view::View;

/// What changes are planned and committed on, as on a book.
///
/// An intake is generic over it: a book has stored questions in it, and no fact can tie those to the name of a backup.
pub trait Keeps: Drop {
    ghost use Rattle.std.specs.Prelude.{List};
    ghost use Rattle.keep_hooks.specs.Guards.{HooksData, Tally};
    ghost use Rattle.keep_ledger.specs.LedgerState.{LedgerState};

    /// The opening, the events and the live repository.
    ghost ledger: { Self → LedgerState };

    /// The vetoes and watches that are armed.
    ghost hooks: { Self → HooksData };

    /// The watches with their totals.
    ghost tallies: { Self → List Tally };

    /// What it shows to planners.
    fn view(&self) -> View<'_>
        ensures { result ≡ shown_by (ledger self.now) };

    /// Hands in these blobs where an index lists them, to be hashed by this. What was hashed is remembered.
    fn hash_blobs<H: Hashing>(&mut self, blobs: &[BlobId], hashing: &mut H)
        requires { AreSums (ledger self.old).events (hooks self.old).watches (tallies self.old) }
        ensures ledger { ledger self.new ≡ ledger self.old }
        ensures sums { AreSums (ledger self.new).events (hooks self.new).watches (tallies self.new) };

    /// Commits a change, or refuses it.
    fn commit(&mut self, planned: Planned) -> Result<Made, Refusal>
        requires { AreSums (ledger self.old).events (hooks self.old).watches (tallies self.old) }
        ensures made { OnOk result (ledger self.new ≡ with_event (ledger self.old) (Commit planned)) }
        ensures refused { IfErr result (λ _. ledger self.new ≡ ledger self.old) }
        ensures sums { AreSums (ledger self.new).events (hooks self.new).watches (tallies self.new) };
}

impl<S: Shelf> Keeps for Book<S> {
    ghost use Rattle.keep_hooks.specs.Rules.{tallies_of};
    ghost use Rattle.keep_book.specs.Armed.{hooks_of, ledger_of};

    ghost ledger = { λ book. ledger_of book };

    ghost hooks = { λ book. hooks_of book };

    ghost tallies = { λ book. tallies_of book.hooks.watches.items };

    fn view(&self) -> View<'_> {
        self.ledger().view()
    }

    fn hash_blobs<H: Hashing>(&mut self, blobs: &[BlobId], hashing: &mut H) {
        Book::hash_blobs(self, blobs, hashing);
    }

    fn commit(&mut self, planned: Planned) -> Result<Made, Refusal> {
        ask(self, Request::Commit(planned))
    }
}
