ghost use Rattle.std.specs.Prelude.{◌≡◌, ◌≢◌, Err, IfErr, IfOk, true};
ghost use Rattle.keep_acts.specs.Shown.{shown_by};
ghost use Rattle.keep_book.specs.Armed.{HasSums, ledger_of};
ghost use Rattle.keep_docs.specs.Doc.{Answers};
ghost use Rattle.keep_jobs.specs.Job.{has_bad_edit, job_change, job_view, settings_view};
ghost use Rattle.keep_plan.specs.declared.plan_error.PlanError.TheVariants as plan_error;
ghost use Rattle.keep_view.specs.Planned.{IsPlannedOn};
ghost use Rattle.keep_acts.specs.Changing.{Changes, Commits};
ghost use Rattle.keep_acts.specs.declared.not_done.NotDone.TheVariants as the_cause;

use crate::made::Made;
use crate::not_done::NotDone;
use crate::outcome::Outcome;
use crate::requesting::ask;
use keep_book::Book;
use keep_change::{Change, Planned};
use keep_jobs::{HoldsFilter, Job, Settings, plan};
use keep_ledger::Request;
use keep_plan::PlanError;
use keep_shelf::Shelf;
use std::alloc::Global;

/// Plans the job on what the book shows. A dry run answers the change that is planned, and asks the book for nothing.
/// Else the book is asked for the commit of just that change.
pub fn change<S: Shelf, F: HoldsFilter>(
    alloc: Global,
    book: &mut Book<S>,
    settings: Settings,
    job: &Job<F>,
    is_dry: bool,
) -> Result<Outcome, NotDone>
    requires { HasSums book.old }
    ensures changes { let due = job_change (shown_by (ledger_of book.old)) (settings_view settings)
        (job_view F.rule job.now) in Changes book.old due is_dry result book.new }
    ensures bad_edit { has_bad_edit (job_view F.rule job.now) ≡ true →
        result ≡ Err (the_cause.Unplanned plan_error.BadEdit) }
    ensures refused { IfErr result (λ cause. ledger_of book.new ≡ ledger_of book.old) }
    ensures sums { HasSums book.new }
{
    if is_dry {
        return match preview(alloc, book, settings, job) {
            Ok(change) => Ok(Outcome::Planned(change)),
            Err(error) => Err(NotDone::Unplanned(error)),
        };
    }
    match commit(alloc, book, settings, job) {
        Ok(made) => Ok(Outcome::Made(made)),
        Err(cause) => Err(cause),
    }
}

/// The change that the job asks for, planned on what the book shows. The book is only looked at.
pub fn preview<S: Shelf, F: HoldsFilter>(
    alloc: Global,
    book: &Book<S>,
    settings: Settings,
    job: &Job<F>,
) -> Result<Change, PlanError>
    ensures change { Answers plan_error.Memory (λ change. change)
        (job_change (shown_by (ledger_of book.now)) (settings_view settings) (job_view F.rule job.now)) result }
    ensures bad_edit { has_bad_edit (job_view F.rule job.now) ≡ true → result ≡ Err plan_error.BadEdit }
{
    let planned = planned_on(alloc, book, settings, job)?;
    let Planned { change, seen: _ } = planned;
    Ok(change)
}

/// The change that the job asks for, with the length of the history that it was planned on.
fn planned_on<S: Shelf, F: HoldsFilter>(
    alloc: Global,
    book: &Book<S>,
    settings: Settings,
    job: &Job<F>,
) -> Result<Planned, PlanError>
    ensures change { Answers plan_error.Memory (λ planned. planned.change)
        (job_change (shown_by (ledger_of book.now)) (settings_view settings) (job_view F.rule job.now)) result }
    ensures planned { IfOk result (IsPlannedOn (shown_by (ledger_of book.now))) }
    ensures bad_edit { has_bad_edit (job_view F.rule job.now) ≡ true → result ≡ Err plan_error.BadEdit }
{
    let planned = plan(alloc, &book.ledger().view(), settings, job)?;
    Ok(planned)
}

/// Plans the job on what the book shows, and commits it at once.
fn commit<S: Shelf, F: HoldsFilter>(
    alloc: Global,
    book: &mut Book<S>,
    settings: Settings,
    job: &Job<F>,
) -> Result<Made, NotDone>
    requires { HasSums book.old }
    ensures commits { let due = job_change (shown_by (ledger_of book.old)) (settings_view settings)
        (job_view F.rule job.now) in Commits book.old due result book.new }
    ensures bad_edit { has_bad_edit (job_view F.rule job.now) ≡ true →
        result ≡ Err (the_cause.Unplanned plan_error.BadEdit) }
    ensures refused { IfErr result (λ cause. ledger_of book.new ≡ ledger_of book.old) }
    ensures sums { HasSums book.new }
{
    let planned = planned_on(alloc, book, settings, job)?;
    match ask(book, Request::Commit(planned)) {
        Ok(made) => Ok(made),
        Err(refusal) => Err(NotDone::Refused(refusal)),
    }
}
