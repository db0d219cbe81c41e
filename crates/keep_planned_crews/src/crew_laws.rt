ghost use Rattle.keep_planned_crews.specs.Losing.{CrewsLoseNothing, DesksLoseNothing};

use keep_planned_books::planned_histories_lose_nothing;
use keep_register::Naming;

/// Where a desk is opened over a planned history, and each change that may be committed there is planned as a job on what
/// its operator was shown, the desk leaves a planned history, whoever of its operators comes first. So no snapshot loses a
/// blob by what they do.
pub fn planned_desks_lose_nothing<B: Naming>()
    ensures { DesksLoseNothing B.allows }
{
    planned_histories_lose_nothing();
}

/// A crew whose operators work at once leaves a planned history too, so no snapshot loses a blob by what they do.
pub fn planned_crews_lose_nothing()
    ensures { CrewsLoseNothing }
{
    planned_histories_lose_nothing();
}
