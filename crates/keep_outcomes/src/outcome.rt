use crate::made_text::print_effects;
use crate::printed_parts::{Way, print_parts};
use keep_acts::{NotDone, Outcome, PlanAdvice};
use keep_change::Change;
use keep_journal::History;
use keep_run::{Failure, Run, refused};

/// Prints what came of a job: the change, as a table of its files and marks.
pub fn print_outcome(
    run: &Run<'_>,
    history: &History,
    came: Result<Outcome, NotDone>,
) -> Result<(), Failure> {
    match came {
        Ok(Outcome::Planned(change)) => print_planned(run, &change),
        Ok(Outcome::Made(made)) => print_effects(run, history, made, Way::Forth),
        Err(NotDone::Unplanned(error)) => Err(Failure::refused(run.alloc, &PlanAdvice(&error))),
        Err(NotDone::Refused(refusal)) => Err(refused(run, 0, &refusal)),
    }
}

/// Prints the change that would be made.
fn print_planned(run: &Run<'_>, change: &Change) -> Result<(), Failure> {
    if run.is_json {
        run.print(b"{\"planned\":true,\"parts\":")?;
        print_parts(run, change, Way::Forth)?;
        return run.print(b"}\n");
    }
    run.print(b"would change:\n")?;
    print_parts(run, change, Way::Forth)
}
