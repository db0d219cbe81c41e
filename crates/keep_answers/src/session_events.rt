ghost use Rattle.std.specs.Prelude.{◌≡◌, ◌≢◌, Err, IfErr, IfOk, Ok, true};
ghost use Rattle.keep_book.specs.Armed.{HasSums, IsUnchanged, Responds, ledger_of};
ghost use Rattle.keep_book.specs.Cascade.{Cascades};
ghost use Rattle.keep_change.specs.declared.change.Change.{Change};
ghost use Rattle.keep_jobs.specs.Job.{has_bad_edit, job_change, job_view, settings_view};
ghost use Rattle.keep_journal.specs.declared.request.Request.TheVariants as request;
ghost use Rattle.keep_replies.specs.Reply.{sizes_of};
ghost use Rattle.keep_plan.specs.declared.plan_error.PlanError.TheVariants as plan_error;
ghost use Rattle.keep_answers.specs.Answer.{commit_of, shown_by};
ghost use Rattle.keep_answers.specs.declared.halt.Halt.TheVariants.{Untold};
ghost use Rattle.keep_answers.specs.State.{session_after, session_stopped};

use crate::halt::Halt;
use crate::reply_text::{Outcome, is_fault, is_stopped_by_fault};
use crate::session::Session;
use keep_book::{Book, TakenBack};
use keep_change::{Change, Planned};
use keep_jobs::{Job, plan};
use keep_ledger::{Refusal, Request, Told};
use keep_plan::{Filter, PlanError};
use keep_replies::Sizes;
use keep_shelf::Shelf;

impl Session {
    /// Plans the job on the present state, and commits it at once.
    pub fn perform<S: Shelf>(
        &mut self,
        job: &Job<&Filter>,
        book: &mut Book<S>,
    ) -> Result<Outcome, PlanError>
        requires { HasSums book.old }
        ensures made { let due = job_change (shown_by (ledger_of book.old)) (settings_view self.old.settings)
            (job_view (λ filter. filter.now.rule) job.now) in
            IfOk result (λ made. (change : Change) × (due ≡ Ok change)
            × Responds book.old (commit_of (ledger_of book.old) change) made.0 book.new
            × (self.new ≡ session_after self.old made.0) × (made.1 ≡ sizes_of change)) }
        ensures refused { let due = job_change (shown_by (ledger_of book.old)) (settings_view self.old.settings)
            (job_view (λ filter. filter.now.rule) job.now) in
            IfErr result (λ refusal. refusal ≢ plan_error.Memory → due ≡ Err refusal) }
        ensures bad_edit { has_bad_edit (job_view (λ filter. filter.now.rule) job.now) ≡ true →
            result ≡ Err plan_error.BadEdit }
        ensures same { IfErr result (λ refusal. IsUnchanged book.old book.new × (self.new ≡ self.old)) }
        ensures sums { HasSums book.new }
    {
        let planned = plan(self.alloc, &book.ledger().view(), self.settings, job)?;
        Ok(self.commit(book, planned))
    }

    /// Commits a change that is planned on the present state, and says how much it writes.
    pub fn commit_now<S: Shelf>(&mut self, book: &mut Book<S>, change: Change) -> Outcome
        requires { HasSums book.old }
        ensures responds { Responds book.old (commit_of (ledger_of book.old) change) result.0 book.new }
        ensures sums { HasSums book.new }
        ensures noted { self.new ≡ session_after self.old result.0 }
        ensures sizes { result.1 ≡ sizes_of change }
    {
        let seen = book.ledger().history().length();
        self.commit(book, Planned { change, seen })
    }

    /// Commits a planned change, and says how much it writes.
    fn commit<S: Shelf>(&mut self, book: &mut Book<S>, planned: Planned) -> Outcome
        requires { HasSums book.old }
        ensures responds { Responds book.old (request.Commit planned) result.0 book.new }
        ensures sums { HasSums book.new }
        ensures noted { self.new ≡ session_after self.old result.0 }
        ensures sizes { result.1 ≡ sizes_of planned.change }
    {
        let sizes = Sizes::of(&planned.change);
        (self.ask(book, Request::Commit(planned)), sizes)
    }

    /// Asks the book, and notes where it answers that a call of its shelf failed.
    pub fn ask<S: Shelf>(&mut self, book: &mut Book<S>, request: Request) -> Result<Told, Refusal>
        requires { HasSums book.old }
        ensures responds { Responds book.old request result book.new }
        ensures sums { HasSums book.new }
        ensures noted { self.new ≡ session_after self.old result }
    {
        let reply = book.ask(request);
        self.faulted = self.faulted || is_fault(&reply);
        reply
    }

    /// Takes the change back with all that leans on it, and notes where a call of the book's shelf failed.
    pub fn take_back<S: Shelf>(&mut self, book: &mut Book<S>, number: u64) -> TakenBack
        requires { HasSums book.old }
        ensures taken { Cascades book.old number result book.new }
        ensures sums { HasSums book.new }
        ensures noted { self.new ≡ session_stopped self.old result.stopped }
    {
        let taken = book.undo_with(number);
        self.faulted = self.faulted || is_stopped_by_fault(&taken.stopped);
        taken
    }

    /// Holds an answer back where a call of the shelf failed, and it isn't known whether it was done.
    pub fn require_sure<S: Shelf>(&self, book: &Book<S>) -> Result<(), Halt>
        ensures { IfErr result (λ halt. (halt ≡ Untold) × (self.now.faulted ≡ true)) }
    {
        if self.faulted && !book.ledger().shelf().is_sure() {
            return Err(Halt::Untold);
        }
        Ok(())
    }
}
