ghost use Rattle.std.specs.Prelude.{◌≡◌, false, true};
ghost use Rattle.keep_pages.specs.Histories.{shown_at};
ghost use Rattle.keep_crew.specs.Planned.{IsPlanned};

use keep_change::Planned;
use keep_plan::PlanError;
use keep_register::{Naming, Pass};
use keep_view::View;

/// What plans a change on what an operator is shown.
///
/// A crew is generic over it: a planner may hold a stored question, and no fact can tie that to a desk's name.
pub trait Plans: Drop + Send {
    ghost use Rattle.std.specs.Prelude.{◌≡◌, IfOk, Result};
    ghost use Rattle.keep_change.specs.declared.change.Change.{Change};
    ghost use Rattle.keep_docs.specs.Doc.{Answers};
    ghost use Rattle.keep_plan.specs.declared.plan_error.PlanError.{PlanError};
    ghost use Rattle.keep_plan.specs.declared.plan_error.PlanError.TheVariants as the_error;
    ghost use Rattle.keep_view.specs.Shown.{Shown};

    /// The change that it plans on what is shown, or why there is none.
    ghost wanted: { Self → Shown → Result Change PlanError };

    /// That change, with the length that it was planned on; or want of memory.
    fn plan(&self, view: &View) -> Result<Planned, PlanError>
        ensures change { Answers the_error.Memory (λ planned. planned.change) (wanted self.now view.now) result }
        ensures seen { IfOk result (λ planned. planned.seen ≡ view.now.length) };
}

/// Plans on the page that the pass reads, and ends its reading. It takes no lock, and waits for nobody.
pub fn plan_on<B: Naming, P: Plans>(pass: &mut Pass<B>, plans: &P) -> Result<Planned, PlanError>
    requires { pass.old.shown ≡ true }
    ensures leaves { pass.new ≡ record pass.old { shown = false } }
    ensures planned { let shown = shown_at B.opening pass.old.seen in
        IsPlanned (P.wanted plans.now shown) shown result }
{
    let planned = plans.plan(&pass.view());
    pass.leave();
    planned
}
