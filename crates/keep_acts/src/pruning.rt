ghost use Rattle.std.specs.Prelude.{◌≡◌};
ghost use Rattle.keep_book.specs.Armed.{HasSums};
ghost use Rattle.keep_jobs.specs.Job.{settings_view};
ghost use Rattle.keep_acts.specs.Pruning.{Prunes, goes_on};

use crate::changing::change;
use crate::not_done::NotDone;
use crate::outcome::Outcome;
use keep_book::Book;
use keep_jobs::{Job, Settings};
use keep_plan::{Filter, PlanError};
use keep_shelf::Shelf;
use std::alloc::Global;

/// What came of a prune.
#[derive(Drop)]
pub struct Pruned {
    /// Of the mark.
    pub mark: Result<Outcome, NotDone>,
    /// Of the sweep, where it was asked for.
    pub sweep: Option<Result<Outcome, NotDone>>,
}

/// Marks the packs that no snapshot needs, and then sweeps those whose marks have waited so many seconds: two changes.
/// Where there is nothing to mark it sweeps all the same; where the mark is refused for another cause it doesn't.
///
/// A dry run plans both on what the book shows, so the sweep that it answers knows nothing of the mark.
pub fn prune<S: Shelf>(
    alloc: Global,
    book: &mut Book<S>,
    settings: Settings,
    wait: u64,
    is_dry: bool,
) -> Pruned
    requires { HasSums book.old }
    ensures prunes { Prunes book.old (settings_view settings) wait is_dry result book.new }
    ensures sums { HasSums book.new }
{
    let mark: Job<Filter> = Job::Mark;
    let mark = change(alloc, book, settings, &mark, is_dry);
    if is_let_on(&mark) {
        let sweep: Job<Filter> = Job::Sweep(wait);
        let sweep = change(alloc, book, settings, &sweep, is_dry);
        return Pruned {
            mark,
            sweep: Some(sweep),
        };
    }
    Pruned { mark, sweep: None }
}

/// Whether the sweep follows where this came of the mark.
fn is_let_on(mark: &Result<Outcome, NotDone>) -> bool
    ensures { result ≡ goes_on mark.now }
{
    match mark {
        Ok(_) => true,
        Err(NotDone::Unplanned(PlanError::NothingToDo)) => true,
        Err(_) => false,
    }
}
