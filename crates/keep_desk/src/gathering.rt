ghost use Rattle.std.specs.Prelude.{◌≡◌, length};
ghost use Rattle.std.specs.List.{All};
ghost use mathlib.Core.List.{IsPrefix};
ghost use Rattle.keep_crew.specs.Asking.{count_of};

use keep_register::{Keeper, Naming, Pass, Register};
use std::sync::ledger::Share;

/// Takes the passes in: what each has seen begins the list, and their counts come together.
pub(crate) fn gather<B: Naming, K: Keeper>(
    register: &mut Register<B, K>,
    mut passes: Vec<Pass<B>>,
    rest: &mut Share<B>,
)
    requires { (rest.old.parts ≡ 0) × (rest.old.amount ≡ 0) }
    ensures same { register.new ≡ register.old }
    ensures begins { All (λ p. IsPrefix p.seen register.old.events) passes.items }
    ensures amount { rest.new.amount ≡ count_of passes.items }
    ensures parts { rest.new.parts ≡ length passes.items }
{
    while let Some(pass) = passes.pop() {
        let share = pass.close(register);
        rest.merge(share);
    }
}
