ghost use Rattle.std.specs.Prelude.{◌≡◌, ◌≢◌, ◌^◌, ◌≤◌, ◌⊎◌, [], Err, IfErr, IfOk, IfSome, OnErr, OnOk, Ok, true};
ghost use Rattle.std.specs.List.{All};
ghost use Rattle.keep_change.specs.declared.outline.Outline.{Outline};
ghost use Rattle.keep_hooks.specs.Guards.{HasRoom, tallies_after};
ghost use Rattle.keep_hooks.specs.Written.{name_count};
ghost use Rattle.keep_journal.specs.Opening.{IsOpen};
ghost use Rattle.keep_ledger.specs.Dependents.{Passes};
ghost use Rattle.keep_ledger.specs.Ends.{Ends, FaultsLast, heard};
ghost use Rattle.keep_ledger.specs.Entering.{Enters, is_plain};
ghost use Rattle.keep_ledger.specs.Guarding.{IsOutline, event_outline};
ghost use Rattle.keep_ledger.specs.Reply.{IsFormed, Replies, early_refusal, late_refusal, state_after, told_of};
ghost use Rattle.keep_ledger.specs.Request.{CanBegin, CanBeMade, IsFree};
ghost use Rattle.keep_ledger.specs.Stops.{EachCallReads};
ghost use Rattle.keep_ledger.specs.Sums.{AreSums};

use crate::checks::{
    check_blocked, check_commit, check_empty, check_met, check_redo, check_room, check_undo,
};
use crate::guarding::{check_vetoes, outline_at, outline_for, tell};
use crate::ledger::Ledger;
use crate::reply::Refusal;
use keep_change::{Outline, What};
use keep_hooks::Guard;
use keep_journal::{Request, Told};
use keep_shelf::{Fault, Shelf};
use std::alloc::AllocError;

impl<S: Shelf> Ledger<S> {
    /// Does what is asked, or refuses it. Where it is free, nothing but want of room refuses it before the vetoes are
    /// asked, and nothing else is looked at then.
    pub(crate) fn ask_by<V: Guard>(
        &mut self,
        guard: &mut V,
        request: Request,
        is_free: bool,
    ) -> Result<Told, Refusal>
        requires alone { is_free ≡ true → IsFree self.old.state request }
        requires sums { AreSums self.old.state.events (V.armed guard.old).watches (V.tallies guard.old) }
        ensures reply { result ≢ Err Refusal.Fault →
            Replies self.old.state (V.armed guard.old).vetoes request (heard self.old.state request result) }
        ensures after { self.new.state ≡ state_after self.old.state request (heard self.old.state request result) }
        ensures ends { Ends self.old request result self.new }
        ensures faults { FaultsLast self.old (V.armed guard.old).vetoes request result self.new }
        ensures stops { EachCallReads self.old request self.new }
        ensures open { let b = self.old.state in IsOpen b.opening b.events b.live }
        ensures hooks { V.armed guard.new ≡ V.armed guard.old }
        ensures sums { AreSums self.new.state.events (V.armed guard.new).watches (V.tallies guard.new) }
    {
        self.finish()?;
        let told = self.try_ask(guard, request, is_free)?;
        match self.finish() {
            Ok(()) => Ok(told),
            Err(Fault) => Err(Refusal::Unsettled(told.number)),
        }
    }

    /// Does what is asked where no move is due, but for the moves of its event, or refuses it.
    fn try_ask<V: Guard>(
        &mut self,
        guard: &mut V,
        request: Request,
        is_free: bool,
    ) -> Result<Told, Refusal>
        requires alone { is_free ≡ true → IsFree self.old.state request }
        requires settled { self.old.due ≡ [] }
        requires sums { AreSums self.old.state.events (V.armed guard.old).watches (V.tallies guard.old) }
        ensures reply { result ≢ Err Refusal.Fault →
            Replies self.old.state (V.armed guard.old).vetoes request result }
        ensures enters { Enters self.old request result self.new }
        ensures free { let told = told_of self.old.state.events request in
            result ≡ Err Refusal.Fault → Replies self.old.state (V.armed guard.old).vetoes request (Ok told) }
        ensures hooks { V.armed guard.new ≡ V.armed guard.old }
        ensures sums { AreSums self.new.state.events (V.armed guard.new).watches (V.tallies guard.new) }
    {
        self.check(&request, is_free)?;
        let outline = self.outline(guard, &request);
        check_vetoes(guard, &request, &outline)?;
        self.check_state(&request)?;
        let outline = outline?;
        self.make_and_tell(guard, request, outline)
    }

    /// Brings the event in, and then tells the watches of it.
    fn make_and_tell<V: Guard>(
        &mut self,
        guard: &mut V,
        request: Request,
        outline: Option<Outline>,
    ) -> Result<Told, Refusal>
        requires settled { self.old.due ≡ [] }
        requires free { CanBeMade self.old.state request }
        requires small { All HasRoom (V.tallies guard.old) }
        requires few { IfSome outline (λ made. name_count made ≤ 2 ^ 20) }
        ensures enters { Enters self.old request result self.new }
        ensures cause { IfErr result (λ refusal. (refusal ≡ Refusal.Memory) ⊎ (refusal ≡ Refusal.Fault)) }
        ensures armed { V.armed guard.new ≡ V.armed guard.old }
        ensures told { OnOk result ((asked : Outline)
            → IsOutline (V.armed guard.old).vetoes (V.tallies guard.old) asked outline
            → V.tallies guard.new ≡ tallies_after asked (V.tallies guard.old)) }
        ensures untold { OnErr result (V.tallies guard.new ≡ V.tallies guard.old) }
    {
        let told = self.make(request)?;
        tell(guard, outline);
        Ok(told)
    }

    /// Why the request is refused, whatever the vetoes say.
    fn check(&self, request: &Request, is_free: bool) -> Result<(), Refusal>
        requires alone { is_free ≡ true → IsFree self.now.state request.now }
        ensures malformed { ¬ IsFormed request.now → result ≡ Err Refusal.Malformed }
        ensures formed { IsFormed request.now → Passes (early_refusal self.now.state request.now) result }
        ensures begins { OnOk result (CanBegin self.now.state request.now) }
        ensures open { let b = self.now.state in IsOpen b.opening b.events b.live }
        ensures plain { IfErr result (λ refusal. is_plain refusal ≡ true) }
    {
        if is_free {
            return check_room(self.history());
        }
        match request {
            Request::Commit(planned) => check_commit(self.history(), planned),
            Request::Undo(n) => check_undo(self.history(), self.touch(), *n),
            Request::Redo(n) => check_redo(self.history(), *n),
            Request::Empty(n) => check_empty(self.history(), *n),
        }
    }

    /// Why the request is refused once the vetoes let it pass.
    fn check_state(&self, request: &Request) -> Result<(), Refusal>
        requires { CanBegin self.now.state request.now }
        ensures passes { Passes (late_refusal self.now.state request.now) result }
        ensures plain { IfErr result (λ refusal. is_plain refusal ≡ true) }
    {
        match request {
            Request::Commit(planned) => check_met(self.live(), &planned.change),
            Request::Redo(n) => check_blocked(self.history(), self.touch(), self.live(), *n),
            Request::Undo(_) | Request::Empty(_) => Ok(()),
        }
    }

    /// The outline of the event that the request makes, where there is a veto or a watch.
    fn outline<V: Guard>(&self, guard: &V, request: &Request) -> Result<Option<Outline>, AllocError>
        requires { CanBegin self.now.state request.now }
        ensures { let asked = event_outline self.now.state request.now in
            IfOk result (λ made. IsOutline (V.armed guard.now).vetoes (V.tallies guard.now) asked made) }
    {
        let alloc = self.alloc;
        let history = self.history();
        match request {
            Request::Commit(planned) => {
                let number = history.last_change() + 1;
                outline_for(alloc, guard, What::Commit, number, &planned.change)
            }
            Request::Undo(n) => outline_at(alloc, guard, history, What::Undo, *n),
            Request::Redo(n) => outline_at(alloc, guard, history, What::Redo, *n),
            Request::Empty(n) => Ok(Some(Outline::of_empty(alloc, *n))),
        }
    }
}
