ghost use Rattle.std.specs.Prelude.{◌≡◌, ◌≤◌, IfErr, IfOk};
ghost use Rattle.keep_jobs.specs.Job.{settings_view};
ghost use Rattle.keep_book.specs.Armed.{HasSums, hooks_of, ledger_of};
ghost use Rattle.keep_operators.specs.Crewed.{IsCrewed};

use keep_book::Book;
use keep_chronicle::Opened;
use keep_operators::{CrewTally, NoCrew, Order, crew_of};
use keep_shelf::Shelf;
use keep_threads::crew_at_desk;
use std::marker::Brand;
use std::sync::Wait;
use std::sync::ledger::Blank;
use std::thread::Threads;

/// Has operators work at a desk over this book, each in a thread of its own, and hands it back.
pub(crate) fn crewed<R, S>(
    rt: &R,
    book: Book<S>,
    order: Order<'_>,
) -> (Book<S>, Result<CrewTally, NoCrew>)
where
    R: Wait + Threads + Copy + Send + Sync,
    S: Shelf + Send,
    requires sums { HasSums book }
    requires some { 1 ≤ order.size }
    requires most { order.size ≤ 8 }
    ensures crewed { IfOk result.1 (λ tally. IsCrewed (hooks_of book).vetoes (settings_view order.entry.settings)
        order.entry.time.now order.entry.size (ledger_of book) (ledger_of result.0) tally.accepted tally.length) }
    ensures handed { IfErr result.1 (λ _. result.0 ≡ book) }
    ensures hooks { hooks_of result.0 ≡ hooks_of book }
    ensures sums { HasSums result.0 }
{
    let Ok(works) = crew_of(order.alloc, order.size, order.settings, order.time) else {
        return (book, Err(NoCrew::Memory));
    };
    let Some(opened) = Opened::new() else {
        return (book, Err(NoCrew::NoPass));
    };
    let blank = Blank::new(u64::from(order.size));
    crew_at_desk::<Brand, R, Book<S>>(rt, book, opened, blank, works, order)
}
