ghost use Rattle.std.specs.Prelude.{◌≡◌, ◌^◌, ◌≤◌, [], IfOk, length, nat_lt};
ghost use Rattle.std.specs.List.{All};
ghost use Rattle.keep_hooks.specs.Guards.{HasRoom, first_refusing, tallies_after};
ghost use Rattle.keep_hooks.specs.Written.{name_count};

use crate::hook_name::HookName;
use keep_change::Outline;
use std::alloc::AllocError;

/// What is asked before an event is made, and told of it after.
pub trait Guard: Drop + Send {
    ghost use Rattle.keep_hooks.specs.Guards.{HooksData, Tally};
    ghost use Rattle.std.specs.Prelude.{List};

    /// Its vetoes and watches, without totals.
    ghost armed: { Self → HooksData };

    /// The names of its watches, what they count, and their totals, in order.
    ghost tallies: { Self → List Tally };

    fn has_vetoes(&self) -> bool
        ensures { result ≡ nat_lt 0 (length (armed self.now).vetoes) };

    fn has_watches(&self) -> bool
        ensures { result ≡ nat_lt 0 (length (tallies self.now)) };

    /// The name of the first veto that refuses the event.
    fn first(&self, outline: &Outline) -> Result<Option<HookName>, AllocError>
        ensures { IfOk result (λ name. name ≡ first_refusing (armed self.now).vetoes outline.now) };

    /// Tells each watch of the event.
    fn tell(&mut self, outline: &Outline)
        requires small { All HasRoom (tallies self.old) }
        requires few { name_count outline.now ≤ 2 ^ 20 }
        ensures armed { armed self.new ≡ armed self.old }
        ensures told { tallies self.new ≡ tallies_after outline.now (tallies self.old) };
}

/// No vetoes and no watches.
#[derive(Drop)]
pub struct NoHooks {}

impl Guard for NoHooks {
    ghost armed = { λ _. record { vetoes = []; watches = [] } };

    ghost tallies = { λ _. [] };

    fn has_vetoes(&self) -> bool {
        false
    }

    fn has_watches(&self) -> bool {
        false
    }

    fn first(&self, _outline: &Outline) -> Result<Option<HookName>, AllocError> {
        Ok(None)
    }

    fn tell(&mut self, _outline: &Outline) {}
}
