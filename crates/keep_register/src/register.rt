ghost use Rattle.std.specs.Prelude.{◌≡◌, ◌<◌, ◌≤◌, List, [], ◌∷◌, ◌++◌, IfOk, length};
ghost use mathlib.Core.List.{IsPrefix};
ghost use Rattle.keep_journal.specs.Opening.{IsOpen};
ghost use Rattle.keep_journal.specs.declared.event.Event as the_event;
ghost use Rattle.keep_ledger.specs.Ends.{failures_after};
ghost use Rattle.keep_ledger.specs.Sums.{AreSums};
ghost use Rattle.keep_touch.specs.Taken.{AreTaken};
ghost use Rattle.keep_book.specs.Cascade.{RefusesOrGives, taken_refusal};
ghost use Rattle.keep_chronicle.specs.Chronicle.{events_of};
ghost use Rattle.keep_pages.specs.Histories.{length_at, state_of, IsHistory, IsLegal};
ghost use Rattle.keep_register.specs.Allowed.{AreAllowed, MayFollow};
ghost use Rattle.keep_register.specs.Asked.{WasAsked, counted_after, is_in};
ghost use Rattle.keep_register.specs.Pages.{IsStep};

use crate::keeper::Keeper;
use crate::naming::Naming;
use crate::step::Step;
use keep_chronicle::{Chronicle, Opened, Sight};
use keep_ledger::{Refusal, Request, Told};
use keep_pages::last_event;
use std::alloc::AllocError;
use std::marker::Model;
use std::sync::ledger::{Book, Share};

/// A keeper, with the list of the events that it accepted since the desk was opened, each counted once. The list is
/// told for clauses alone.
#[derive(Drop)]
pub struct Register<B: Naming, K: Keeper> {
    keeper: K,
    chronicle: Chronicle<B>,
    counts: Book<B>,
}

impl<B: Naming, K: Keeper> Model for Register<B, K> {
    ghost use Rattle.std.specs.Prelude.{◌≡◌, [], length};
    ghost use Rattle.keep_ledger.specs.Sums.{AreSums};
    ghost use Rattle.keep_pages.specs.Histories.{state_of, IsHistory};
    ghost use Rattle.keep_register.specs.Allowed.{AreAllowed};
    ghost use Rattle.keep_register.specs.Registered.{Registered};

    ghost Value = { Registered };

    ghost view = { λ r. record { events = r.chronicle; failures = K.failures r.keeper } };

    ghost invariant = { λ r. (K.ledger r.keeper ≡ state_of B.opening r.chronicle)
        × IsHistory B.hooks.vetoes B.opening r.chronicle
        × (K.hooks r.keeper ≡ B.hooks)
        × AreSums (K.ledger r.keeper).events (K.hooks r.keeper).watches (K.tallies r.keeper)
        × (r.counts.total ≡ length r.chronicle)
        × AreAllowed B.allows B.hooks.vetoes B.opening [] r.chronicle };
}

impl<B: Naming, K: Keeper> Register<B, K> {
    /// The keeper as the desk is opened with it.
    pub fn new(keeper: K, opened: Opened, counts: Book<B>) -> Register<B, K>
        requires history { opened.sight.book ≡ B.book }
        requires opening { K.ledger keeper ≡ B.opening }
        requires open { IsOpen B.opening.opening B.opening.events B.opening.live }
        requires hooks { K.hooks keeper ≡ B.hooks }
        requires sums { AreSums (K.ledger keeper).events (K.hooks keeper).watches (K.tallies keeper) }
        requires counts { counts.total ≡ 0 }
        ensures none { result.events ≡ [] }
        ensures failures { result.failures ≡ K.failures keeper }
    {
        Register {
            keeper,
            chronicle: opened.named(),
            counts,
        }
    }

    /// The number of the last event.
    pub fn length(&self) -> u64
        ensures length { result ≡ length_at B.opening self.now.events }
        ensures history { IsHistory B.hooks.vetoes B.opening self.now.events }
    {
        self.keeper.history().length()
    }

    /// The token of the list.
    pub fn sight(&self) -> Sight
        ensures book { result.book ≡ B.book }
        ensures all { events_of result.log ≡ self.now.events }
    {
        self.chronicle.sight()
    }

    /// What any token has seen of the list is a beginning of it.
    pub fn covers(&mut self, seen: &Sight)
        requires { seen.now.book ≡ B.book }
        ensures same { self.new ≡ self.old }
        ensures begins { IsPrefix (events_of seen.now.log) self.new.events }
    {
        self.chronicle.covers(seen);
    }

    /// The numbers of the changes that have to be taken back with change n after the list, from the greatest down.
    pub fn taken_with(&self, n: u64) -> Result<Vec<u64>, Refusal>
        ensures taken { let events = (state_of B.opening self.now.events).events in
            RefusesOrGives (taken_refusal events n) (λ numbers. AreTaken events n numbers.items) result }
        ensures history { IsHistory B.hooks.vetoes B.opening self.now.events }
    {
        self.keeper.taken_with(n)
    }

    /// Asks the keeper. An event that is in, settled or not, is written and counted.
    pub fn ask(&mut self, share: &mut Share<B>, request: Request) -> Result<Told, Refusal>
        requires parts { 0 < share.old.parts }
        requires may { MayFollow B.allows self.old.events request }
        ensures asked { WasAsked B.hooks.vetoes B.opening request result self.old.events self.new.events }
        ensures failures { self.new.failures ≡ failures_after result self.old.failures }
        ensures legal { IsLegal B.hooks.vetoes B.opening self.new.events }
        ensures counted { share.new.amount ≡ counted_after (is_in result) share.old.amount }
        ensures parts { share.new.parts ≡ share.old.parts }
    {
        let reply = self.keeper.ask(request);
        if event_is_in(&reply) {
            self.chronicle.write(self.keeper.history());
            self.counts.add(share, 1);
        }
        reply
    }

    /// The step to the page of the whole list.
    pub fn last_step(&self) -> Result<Step, AllocError>
        ensures { (before : List the_event.Event) (event : the_event.Event) → self.now.events ≡ before ++ event ∷ []
            → IfOk result (IsStep B.book self.now.events event) }
    {
        let last = last_event(self.keeper.history(), self.keeper.live())?;
        let Some(event) = last else {
            return Err(AllocError);
        };
        Ok(Step::new(event, self.chronicle.sight()))
    }

    /// The keeper, and that the share of all that was counted tells how many events the list has.
    pub fn close(self, all: &mut Share<B>) -> K
        ensures ledger { K.ledger result ≡ state_of B.opening self.events }
        ensures history { IsHistory B.hooks.vetoes B.opening self.events }
        ensures allowed { AreAllowed B.allows B.hooks.vetoes B.opening [] self.events }
        ensures hooks { K.hooks result ≡ B.hooks }
        ensures sums { AreSums (K.ledger result).events (K.hooks result).watches (K.tallies result) }
        ensures least { all.old.amount ≤ length self.events }
        ensures whole { all.old.parts ≡ B.parts → length self.events ≡ all.old.amount }
    {
        let Register {
            keeper,
            chronicle: _chronicle,
            mut counts,
        } = self;
        counts.audit(all);
        keeper
    }
}

/// Whether the event of a request is in: it was told, or is unsettled.
fn event_is_in(reply: &Result<Told, Refusal>) -> bool
    ensures { result ≡ is_in reply.now }
{
    matches!(reply, Ok(_) | Err(Refusal::Unsettled(_)))
}
