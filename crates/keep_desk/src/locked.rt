ghost use Rattle.std.specs.Prelude.{◌≡◌, ◌+◌, [], ◌⊎◌, IfOk, OnErr, OnOk, false, length, true};
ghost use mathlib.Core.List.{IsPrefix};
ghost use Rattle.keep_ledger.specs.Ends.{failures_after};
ghost use Rattle.keep_ledger.specs.Sums.{AreSums};
ghost use Rattle.keep_touch.specs.Taken.{AreTaken};
ghost use Rattle.keep_book.specs.Cascade.{RefusesOrGives, taken_refusal};
ghost use Rattle.keep_pages.specs.Histories.{shown_at, state_of, IsHistory, IsLegal};
ghost use Rattle.keep_register.specs.Allowed.{MayAsk, MayFollow};
ghost use Rattle.keep_register.specs.Asked.{WasAsked, counted_after, is_in};
ghost use Rattle.keep_register.specs.Pages.{events_on};
ghost use Rattle.keep_crew.specs.Answered.{IsAnswered, Tells, has_event};
ghost use Rattle.keep_desk.specs.Cascade.{IsTakenBack};
ghost use Rattle.keep_crew.specs.Planned.{IsPlanned};
ghost use Rattle.keep_desk.specs.Closed.{IsClosed};
ghost use Rattle.keep_desk.specs.Held.{FailuresAfter, IsBehind};

use crate::answers::number_in;
use crate::gathering::gather;
use crate::press::{Press, hand_in};
use crate::taken_back::TakenBack;
use keep_change::Planned;
use keep_crew::{DeskError, Plans};
use keep_ledger::{Refusal, Request, Told};
use keep_plan::PlanError;
use keep_register::{Keeper, Naming, Pass, Register, shown_on};
use keep_view::View;
use std::alloc::{AllocError, Global};
use std::marker::Model;
use std::sync::Wait;
use std::sync::ledger::Share;

/// What lies under a desk's lock: the book with the list of its events, and the end from which pages are published.
#[derive(Drop)]
pub struct Locked<B: Naming, R: Wait + Drop, K: Keeper> {
    alloc: Global,
    register: Register<B, K>,
    press: Press<B, R>,
    /// Where the passes' parts of the counts come together.
    rest: Share<B>,
}

impl<B: Naming, R: Wait + Drop, K: Keeper> Model for Locked<B, R, K> {
    ghost use Rattle.std.specs.Prelude.{◌≡◌};
    ghost use Rattle.keep_register.specs.Pages.{events_on};
    ghost use Rattle.keep_desk.specs.Held.{Held, IsUpTo};

    ghost Value = { Held };

    ghost view = { λ l. record {
      journal = l.register.events;
      published = events_on l.press.page;
      failures = l.register.failures;
    } };

    ghost invariant = { λ l. IsUpTo B.book l.register.events l.press.page l.press.pending
        × (l.rest.parts ≡ 0)
        × (l.rest.amount ≡ 0) };
}

impl<B: Naming, R: Wait + Drop, K: Keeper> Locked<B, R, K> {
    pub(crate) fn new(
        alloc: Global,
        register: Register<B, K>,
        press: Press<B, R>,
        rest: Share<B>,
    ) -> Locked<B, R, K>
        requires page { events_on press.page ≡ register.events }
        requires pending { press.pending ≡ [] }
        requires rest { (rest.parts ≡ 0) × (rest.amount ≡ 0) }
    {
        Locked {
            alloc,
            register,
            press,
            rest,
        }
    }

    /// Publishes an event that came late, if there is one.
    fn publish_late(&mut self) -> Result<(), AllocError>
        ensures journal { self.new.journal ≡ self.old.journal }
        ensures ok { OnOk result (self.new.published ≡ self.old.journal) }
        ensures err { OnErr result (self.new.published ≡ self.old.published) }
        ensures late { OnErr result (IsBehind B.hooks.vetoes B.opening self.old) }
        ensures failures { self.new.failures ≡ self.old.failures }
    {
        if self.press.page().length() == self.register.length() {
            return Ok(());
        }
        hand_in(&self.register, &mut self.press)?;
        self.press.publish()?;
        Ok(())
    }

    /// Publishes an event that came late before, does what is asked, and publishes the event of that.
    pub(crate) fn change(&mut self, pass: &mut Pass<B>, request: Request) -> Result<Told, DeskError>
        requires { MayAsk B.allows pass.old.seen request }
        ensures answered { IsAnswered B.hooks.vetoes B.opening request pass.old pass.new result }
        ensures begins { IsPrefix pass.old.seen pass.new.seen }
        ensures legal { IsLegal B.hooks.vetoes B.opening pass.new.seen }
        ensures counted { pass.new.counted ≡ counted_after (has_event result) pass.old.counted }
        ensures published { IfOk result (λ _. self.new.published ≡ self.new.journal) }
        ensures read { IfOk result (λ _. pass.new.read ≡ pass.new.seen) }
        ensures asked { Tells B.hooks.vetoes B.opening request result self.old.journal pass.new.seen
            ⊎ IsBehind B.hooks.vetoes B.opening self.old }
        ensures failures { FailuresAfter result self.old.failures self.new.failures }
    {
        if let Err(AllocError) = self.catch_up(pass) {
            return Err(DeskError::Refused(Refusal::Memory));
        }
        self.change_once(pass, request)
    }

    /// Publishes an event that came late before, and takes the change back with all that leans on it.
    pub(crate) fn undo_with(&mut self, pass: &mut Pass<B>, n: u64) -> TakenBack
        ensures taken_back { IsTakenBack B.hooks.vetoes B.opening n pass.old pass.new result }
        ensures begins { IsPrefix pass.old.seen pass.new.seen }
        ensures legal { IsLegal B.hooks.vetoes B.opening pass.new.seen }
        ensures counted { pass.new.counted ≡ pass.old.counted + length result.numbers.items }
        ensures published { result.stopped ≡ None → self.new.published ≡ self.new.journal }
    {
        if let Err(AllocError) = self.catch_up(pass) {
            return TakenBack::refused(self.alloc, Refusal::Memory);
        }
        let numbers = match self.taken_with(n) {
            Ok(numbers) => numbers,
            Err(refusal) => return TakenBack::refused(self.alloc, refusal),
        };
        for done in 0..numbers.len() {
            if let Err(error) = self.change_once(pass, Request::Undo(numbers[done])) {
                return TakenBack::stopped_at(numbers, done, error);
            }
        }
        TakenBack {
            numbers,
            stopped: None,
        }
    }

    /// Publishes an event that came late before, tells the pass of all events, and plans on what is published then.
    pub(crate) fn plan<P: Plans>(
        &mut self,
        pass: &mut Pass<B>,
        plans: &P,
    ) -> Result<Planned, PlanError>
        ensures begins { IsPrefix pass.old.seen pass.new.seen }
        ensures legal { IsLegal B.hooks.vetoes B.opening pass.new.seen }
        ensures counted { pass.new.counted ≡ pass.old.counted }
        ensures planned { let shown = shown_at B.opening pass.new.seen in
            IsPlanned (P.wanted plans.now shown) shown result }
    {
        if let Err(AllocError) = self.catch_up(pass) {
            return Err(PlanError::Memory);
        }
        plans.plan(&self.view())
    }

    /// What is published, as planners are shown it.
    fn view(&self) -> View<'_>
        ensures { result ≡ shown_at B.opening self.entry.now.published }
    {
        shown_on::<B>(self.press.page())
    }

    /// Ends the pass's reading, publishes an event that came late, and tells the pass of all events.
    fn catch_up(&mut self, pass: &mut Pass<B>) -> Result<(), AllocError>
        ensures journal { self.new.journal ≡ self.old.journal }
        ensures published { OnOk result (self.new.published ≡ self.new.journal) }
        ensures seen { OnOk result (pass.new.seen ≡ self.new.journal) }
        ensures same { OnErr result (pass.new.seen ≡ pass.old.seen) }
        ensures late { OnErr result (IsBehind B.hooks.vetoes B.opening self.old) }
        ensures failures { self.new.failures ≡ self.old.failures }
        ensures within { IsPrefix pass.old.seen self.old.journal }
        ensures begins { IsPrefix pass.old.seen pass.new.seen }
        ensures legal { IsLegal B.hooks.vetoes B.opening pass.new.seen }
        ensures counted { pass.new.counted ≡ pass.old.counted }
    {
        pass.leave();
        self.covers(pass);
        self.publish_late()?;
        self.show_all(pass);
        Ok(())
    }

    /// What the pass has seen begins the list of all events.
    fn covers(&mut self, pass: &Pass<B>)
        ensures same { self.new ≡ self.old }
        ensures begins { IsPrefix pass.now.seen self.old.journal }
    {
        pass.precedes(&mut self.register);
    }

    /// Does what is asked where all events are published and told, and publishes the event of that.
    fn change_once(&mut self, pass: &mut Pass<B>, request: Request) -> Result<Told, DeskError>
        requires published { self.old.published ≡ self.old.journal }
        requires seen { pass.old.seen ≡ self.old.journal }
        requires may { MayFollow B.allows self.old.journal request }
        requires legal { IsLegal B.hooks.vetoes B.opening pass.old.seen }
        ensures tells { Tells B.hooks.vetoes B.opening request result self.old.journal pass.new.seen }
        ensures begins { IsPrefix pass.old.seen pass.new.seen }
        ensures legal { IsLegal B.hooks.vetoes B.opening pass.new.seen }
        ensures counted { pass.new.counted ≡ counted_after (has_event result) pass.old.counted }
        ensures failures { FailuresAfter result self.old.failures self.new.failures }
        ensures told { IfOk result (λ _. pass.new.seen ≡ self.new.journal) }
        ensures read { IfOk result (λ _. pass.new.read ≡ pass.new.seen) }
        ensures published { IfOk result (λ _. self.new.published ≡ self.new.journal) }
    {
        let reply = self.ask(pass, request);
        if let Some(number) = number_in(&reply) {
            if !self.show(pass) {
                return Err(DeskError::Late(number));
            }
        }
        match reply {
            Ok(told) => Ok(told),
            Err(refusal) => Err(DeskError::Refused(refusal)),
        }
    }

    /// Publishes the event that isn't yet, and has the pass read it on the page. Answers whether it has.
    fn show(&mut self, pass: &mut Pass<B>) -> bool
        requires { IsLegal B.hooks.vetoes B.opening pass.old.seen }
        ensures journal { self.new.journal ≡ self.old.journal }
        ensures failures { self.new.failures ≡ self.old.failures }
        ensures published { result ≡ true → self.new.published ≡ self.new.journal }
        ensures seen { result ≡ true → pass.new.seen ≡ self.new.journal }
        ensures read { result ≡ true → pass.new.read ≡ self.new.journal }
        ensures kept { result ≡ false → pass.new.seen ≡ pass.old.seen }
        ensures begins { IsPrefix pass.old.seen pass.new.seen }
        ensures legal { IsLegal B.hooks.vetoes B.opening pass.new.seen }
        ensures counted { pass.new.counted ≡ pass.old.counted }
    {
        if let Err(AllocError) = self.publish_late() {
            return false;
        }
        pass.read_all(&mut self.register)
    }

    /// Tells the pass of all events.
    fn show_all(&mut self, pass: &mut Pass<B>)
        ensures same { self.new ≡ self.old }
        ensures seen { pass.new.seen ≡ self.old.journal }
        ensures begins { IsPrefix pass.old.seen pass.new.seen }
        ensures counted { pass.new.counted ≡ pass.old.counted }
        ensures legal { IsLegal B.hooks.vetoes B.opening pass.new.seen }
    {
        pass.learn(&mut self.register);
    }

    /// Asks where all events are published. The event of an accepted request isn't yet.
    fn ask(&mut self, pass: &mut Pass<B>, request: Request) -> Result<Told, Refusal>
        requires published { self.old.published ≡ self.old.journal }
        requires may { MayFollow B.allows self.old.journal request }
        ensures asked { WasAsked B.hooks.vetoes B.opening request result self.old.journal self.new.journal }
        ensures failures { self.new.failures ≡ failures_after result self.old.failures }
        ensures published { self.new.published ≡ self.old.published }
        ensures seen { pass.new.seen ≡ pass.old.seen }
        ensures counted { pass.new.counted ≡ counted_after (is_in result) pass.old.counted }
    {
        pass.ask(&mut self.register, request)
    }

    /// What has to be taken back with change n.
    fn taken_with(&self, n: u64) -> Result<Vec<u64>, Refusal>
        ensures taken { let events = (state_of B.opening self.now.journal).events in
            RefusesOrGives (taken_refusal events n) (λ numbers. AreTaken events n numbers.items) result }
        ensures history { IsHistory B.hooks.vetoes B.opening self.now.journal }
    {
        self.register.taken_with(n)
    }

    /// Takes the passes in, and gives the book back.
    pub(crate) fn close(self, passes: Vec<Pass<B>>) -> K
        ensures closed { IsClosed B.allows B.hooks.vetoes B.opening B.parts passes.items (K.ledger result) }
        ensures hooks { K.hooks result ≡ B.hooks }
        ensures sums { AreSums (K.ledger result).events (K.hooks result).watches (K.tallies result) }
    {
        let Locked {
            alloc: _,
            mut register,
            press: _press,
            mut rest,
        } = self;
        gather(&mut register, passes, &mut rest);
        register.close(&mut rest)
    }
}
