use keep_ledger::Refusal;
use keep_plan::PlanError;

/// Why a desk didn't tell.
#[derive(Drop)]
pub enum DeskError {
    /// The book's refusal; `Memory` also where there was none to publish an event that came late, which the request
    /// would have come behind: then nothing was changed.
    Refused(Refusal),
    /// What was asked of the change of this number is done, and is in the history, but there was no memory to publish
    /// it: no view shows it yet. The next call publishes it.
    Late(u64),
}

/// Why an operator of a crew didn't tell.
#[derive(Drop)]
pub enum NotTold {
    /// It had no change to ask for: its planner refused, on what was shown.
    Unplanned(PlanError),
    /// The desk's answer.
    Unanswered(DeskError),
}
