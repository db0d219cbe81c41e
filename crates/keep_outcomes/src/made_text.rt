use crate::printed_parts::{Way, print_parts_of};
use keep_acts::Made;
use keep_journal::History;
use keep_ledger::Refusal;
use keep_run::{Failure, Run, refused};

/// Prints what an event did to files and marks.
pub fn print_effects(
    run: &Run<'_>,
    history: &History,
    made: Made,
    way: Way,
) -> Result<(), Failure> {
    if run.is_json {
        print_made(run, history, made, way)?;
        run.print(b"\n")?;
    } else {
        let head = format!(in run.alloc; "change {}, event {}:\n", made.number, made.event)?;
        run.print(head.as_bytes())?;
        print_parts_of(run, history, made.number, way)?;
    }
    settled(run, made)
}

/// Prints what an event did as a JSON object, without a line end.
pub(crate) fn print_made(
    run: &Run<'_>,
    history: &History,
    made: Made,
    way: Way,
) -> Result<(), Failure> {
    let Made {
        number,
        event,
        is_unsettled,
    } = made;
    let head = format!(in run.alloc;
        "{{\"change\":{number},\"event\":{event},\"unsettled\":{is_unsettled},\"parts\":"
    )?;
    run.print(head.as_bytes())?;
    print_parts_of(run, history, number, way)?;
    run.print(b"}")
}

/// Fails where moves of the event are left.
pub(crate) fn settled(run: &Run<'_>, made: Made) -> Result<(), Failure> {
    if made.is_unsettled {
        return Err(refused(run, made.number, &Refusal::Unsettled(made.number)));
    }
    Ok(())
}
