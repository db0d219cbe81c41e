ghost use Rattle.keep_book.specs.Armed.{HasSums};
ghost use Rattle.keep_jobs.specs.Job as the_job;
ghost use Rattle.keep_jobs.specs.Job.{settings_view};
ghost use Rattle.keep_deeds.specs.Deed.{deed_view};
ghost use Rattle.keep_deeds.specs.Performing.{DoesJob, Performs};

use crate::deed::Deed;
use keep_acts::{Made, NotDone, Outcome, Pruned, ask, change, change_chosen, prune};
use keep_book::{Book, TakenBack};
use keep_jobs::{Job, Settings};
use keep_ledger::Refusal;
use keep_plan::Filter;
use keep_shelf::Shelf;
use std::alloc::Global;

/// What came of a deed.
#[derive(Drop)]
pub enum Came {
    /// Of a request to the book.
    Asked(Result<Made, Refusal>),
    /// Of a change that was to be taken back with all that lean on it.
    TakenBack(TakenBack),
    /// Of a job.
    Changed(Result<Outcome, NotDone>),
    /// Of a mark and a sweep.
    Pruned(Pruned),
}

/// Does the deed, and nothing else.
pub fn perform<S: Shelf>(alloc: Global, book: &mut Book<S>, settings: Settings, deed: Deed) -> Came
    requires { HasSums book.old }
    ensures performs { Performs book.old (settings_view settings) (deed_view deed) result book.new }
    ensures sums { HasSums book.new }
{
    match deed {
        Deed::Ask(request) => Came::Asked(ask(book, request)),
        Deed::Cascade(number) => Came::TakenBack(book.undo_with(number)),
        Deed::Do {
            choice,
            task,
            is_dry,
        } => Came::Changed(change_chosen(alloc, book, settings, choice, task, is_dry)),
        Deed::Repair => Came::Changed(repair(alloc, book, settings)),
        Deed::Mark => Came::Changed(mark(alloc, book, settings)),
        Deed::Sweep(wait) => Came::Changed(sweep(alloc, book, settings, wait)),
        Deed::Prune(wait) => Came::Pruned(prune(alloc, book, settings, wait, false)),
    }
}

fn repair<S: Shelf>(
    alloc: Global,
    book: &mut Book<S>,
    settings: Settings,
) -> Result<Outcome, NotDone>
    requires { HasSums book.old }
    ensures changes { DoesJob book.old (settings_view settings) the_job.Repair result book.new }
    ensures sums { HasSums book.new }
{
    let job: Job<Filter> = Job::Repair;
    change(alloc, book, settings, &job, false)
}

fn mark<S: Shelf>(alloc: Global, book: &mut Book<S>, settings: Settings) -> Result<Outcome, NotDone>
    requires { HasSums book.old }
    ensures changes { DoesJob book.old (settings_view settings) the_job.Mark result book.new }
    ensures sums { HasSums book.new }
{
    let job: Job<Filter> = Job::Mark;
    change(alloc, book, settings, &job, false)
}

fn sweep<S: Shelf>(
    alloc: Global,
    book: &mut Book<S>,
    settings: Settings,
    wait: u64,
) -> Result<Outcome, NotDone>
    requires { HasSums book.old }
    ensures changes { DoesJob book.old (settings_view settings) (the_job.Sweep wait) result book.new }
    ensures sums { HasSums book.new }
{
    let job: Job<Filter> = Job::Sweep(wait);
    change(alloc, book, settings, &job, false)
}
