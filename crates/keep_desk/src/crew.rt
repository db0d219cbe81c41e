ghost use Rattle.std.specs.Prelude.{◌≡◌, ℕ, ◌<◌, length};
ghost use Rattle.std.specs.List.{slice_index_or};
ghost use mathlib.Core.List.{IsPrefix};
ghost use Rattle.keep_pages.specs.Histories.{shown_at, IsLegal};
ghost use Rattle.keep_crew.specs.Allowing.{AllowsPlans, AllowsWork};
ghost use Rattle.keep_crew.specs.Asking.{PlansAndCommits, as_told};
ghost use Rattle.keep_crew.specs.Planned.{IsPlanned};
ghost use Rattle.keep_desk.specs.Crew.{DoesWork, HasWorked};

use crate::desk::Desk;
use crate::locked::Locked;
use keep_change::Planned;
use keep_crew::{DeskError, Gate, NotTold, Plans, Work, plan_on};
use keep_ledger::Told;
use keep_plan::PlanError;
use keep_register::{Keeper, Naming, Pass};
use std::sync::Wait;
use std::thread::{self, Threads};

/// As many workers as a desk has passes at most, so that each operator has one.
const MOST_WORKERS: usize = 64;

/// One operator of a crew: its pass, what it is asked for, and once that is done, what came of it.
#[derive(Drop)]
pub struct Operator<B: Naming, P: Plans> {
    pub pass: Pass<B>,
    pub work: Work<P>,
    pub answer: Option<Result<Told, NotTold>>,
}

impl<B: Naming + Send + Sync, R: Wait + Drop + Send, K: Keeper> Desk<B, Locked<B, R, K>> {
    /// Has each operator do its work, in a thread of its own, and waits for all of them. Where no thread can be made,
    /// they work one after another.
    ///
    /// A worker comes by the gate before its work, and once its answer is there. What an operator plans may be committed
    /// on what it was shown.
    pub fn run_crew<W: Wait + Threads + Sync, P: Plans, G: Gate + Sync>(
        &self,
        rt: &W,
        operators: &mut [Operator<B, P>],
        gate: &G,
    )
        requires { (i : ℕ) (d : _) → i < length operators.old
            → AllowsWork B.allows B.opening P.wanted (slice_index_or operators.old i d).work }
        ensures { (i : ℕ) (d : _) → i < length operators.old
            → HasWorked B.hooks.vetoes B.opening P.wanted (slice_index_or operators.old i d) (slice_index_or operators.new i d) }
    {
        thread::for_each_mut(
            rt,
            operators,
            MOST_WORKERS,
            &|place, operator|
                requires { AllowsWork B.allows B.opening P.wanted operator.now.work }
            {
                gate.before(place);
                self.serve(rt, operator);
                gate.after(place);
            },
        );
    }

    fn serve<W: Wait, P: Plans>(&self, rt: &W, operator: &mut Operator<B, P>)
        requires { AllowsWork B.allows B.opening P.wanted operator.old.work }
        ensures { HasWorked B.hooks.vetoes B.opening P.wanted operator.old operator.new }
    {
        let answer = self.work(rt, &mut operator.pass, &operator.work);
        operator.answer = Some(answer);
    }

    /// Does what an operator is asked for.
    fn work<W: Wait, P: Plans>(
        &self,
        rt: &W,
        pass: &mut Pass<B>,
        work: &Work<P>,
    ) -> Result<Told, NotTold>
        requires { AllowsWork B.allows B.opening P.wanted work.now }
        ensures { DoesWork B.hooks.vetoes B.opening P.wanted work.now pass.old pass.new result }
    {
        match work {
            Work::Plan(plans) => self.plan_and_commit(rt, pass, plans),
            Work::Undo(n) => answer_of(self.undo(rt, pass, *n)),
            Work::Redo(n) => answer_of(self.redo(rt, pass, *n)),
            Work::Empty(n) => answer_of(self.empty(rt, pass, *n)),
        }
    }

    /// Plans on what is shown, and commits what was planned.
    fn plan_and_commit<W: Wait, P: Plans>(
        &self,
        rt: &W,
        pass: &mut Pass<B>,
        plans: &P,
    ) -> Result<Told, NotTold>
        requires { AllowsPlans B.allows B.opening (P.wanted plans.now) }
        ensures { PlansAndCommits B.hooks.vetoes B.opening (P.wanted plans.now) pass.old pass.new result }
    {
        match self.plan(rt, pass, plans) {
            Ok(planned) => answer_of(self.commit(rt, pass, planned)),
            Err(why) => Err(NotTold::Unplanned(why)),
        }
    }

    /// Plans on what is published now, without the lock. Where the pass can't enter that, it plans under the lock, on
    /// all that is in.
    pub fn plan<W: Wait, P: Plans>(
        &self,
        rt: &W,
        pass: &mut Pass<B>,
        plans: &P,
    ) -> Result<Planned, PlanError>
        ensures begins { IsPrefix pass.old.seen pass.new.seen }
        ensures legal { IsLegal B.hooks.vetoes B.opening pass.new.seen }
        ensures counted { pass.new.counted ≡ pass.old.counted }
        ensures planned { let shown = shown_at B.opening pass.new.seen in
            IsPlanned (P.wanted plans.now shown) shown result }
    {
        if pass.enter() {
            return plan_on(pass, plans);
        }
        self.locked.lock(rt).plan(pass, plans)
    }
}

fn answer_of(reply: Result<Told, DeskError>) -> Result<Told, NotTold>
    ensures { result ≡ as_told reply }
{
    match reply {
        Ok(told) => Ok(told),
        Err(error) => Err(NotTold::Unanswered(error)),
    }
}
