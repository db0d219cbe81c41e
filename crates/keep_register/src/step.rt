ghost use Rattle.std.specs.Prelude.{◌≡◌};
ghost use Rattle.keep_pages.specs.Following.{IsFormedEvent};

use keep_chronicle::Sight;
use keep_journal::Event;
use std::marker::Model;

/// What takes a page to the next one: an event, and the token of the list with it.
#[derive(Drop)]
pub struct Step {
    pub(crate) event: Event,
    pub(crate) sight: Sight,
}

impl Model for Step {
    ghost use Rattle.std.specs.Coded.{codes};
    ghost use Rattle.keep_register.specs.Pages.{StepState};

    ghost Value = { StepState };

    ghost coded = { Prim.hlevel (codes) };

    ghost use Rattle.keep_pages.specs.Following.{IsFormedEvent};

    ghost view = { λ s. record { book = s.sight.book; log = s.sight.log; event = s.event } };

    ghost invariant = { λ s. IsFormedEvent s.event };
}

impl Step {
    pub(crate) fn new(event: Event, sight: Sight) -> Step
        requires { IsFormedEvent event }
        ensures { result ≡ record { book = sight.book; log = sight.log; event = event } }
    {
        Step { event, sight }
    }
}
