ghost use Rattle.std.specs.Prelude.{◌≡◌, ◌≤◌, IfErr, IfOk};
ghost use Rattle.keep_book.specs.Armed.{HasSums, hooks_of, ledger_of};
ghost use Rattle.keep_jobs.specs.Job.{settings_view};
ghost use Rattle.keep_operators.specs.Crewed.{IsCrewed};

use crate::named_shelf::NamedShelf;
use keep_book::Book;
use keep_operators::{CrewTally, NoCrew, Order};

/// Has operators work over a book, all at once. The program has them work in threads.
pub trait Crew {
    ghost use Rattle.std.specs.Prelude.{Result};
    ghost use Rattle.keep_operators.specs.declared.order.NoCrew.{NoCrew};
    ghost use Rattle.keep_operators.specs.declared.order.CrewTally.{CrewTally};

    /// Whether this was answered.
    ghost answers: { Self → Result CrewTally NoCrew → Type 0 };

    /// The book comes back: as they left it, or as it was where nobody worked.
    fn work<'s>(
        &self,
        book: Book<NamedShelf<'s>>,
        order: Order<'_>,
    ) -> (Book<NamedShelf<'s>>, Result<CrewTally, NoCrew>)
        requires sums { HasSums book }
        requires some { 1 ≤ order.size }
        requires most { order.size ≤ 8 }
        ensures answered { answers self.now result.1 }
        ensures crewed { IfOk result.1 (λ tally. IsCrewed (hooks_of book.entry).vetoes
            (settings_view order.entry.settings) order.entry.time.now order.entry.size (ledger_of book.entry)
            (ledger_of result.0) tally.accepted tally.length) }
        ensures handed { IfErr result.1 (λ _. result.0 ≡ book.entry) }
        ensures hooks { hooks_of result.0 ≡ hooks_of book.entry };
}

/// No operators: where there are no threads to have them work in.
#[derive(Clone, Copy)]
pub struct NoOperators;

impl Crew for NoOperators {
    ghost use Rattle.std.specs.Prelude.{◌≡◌, Err};
    ghost use Rattle.keep_operators.specs.declared.order.NoCrew.TheVariants.{NoPass};

    ghost answers = { λ _ result. result ≡ Err NoPass };

    fn work<'s>(
        &self,
        book: Book<NamedShelf<'s>>,
        _order: Order<'_>,
    ) -> (Book<NamedShelf<'s>>, Result<CrewTally, NoCrew>) {
        (book, Err(NoCrew::NoPass))
    }
}
