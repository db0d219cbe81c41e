use crate::made_text::{print_made, settled};
use crate::outcome::print_outcome;
use crate::printed_parts::Way;
use keep_acts::{Made, NotDone, Outcome, Pruned};
use keep_journal::History;
use keep_run::{Failure, Run};

/// Prints what came of a prune: of the mark where there was something to mark, and of the sweep where it followed. As JSON
/// it is a list of what was made.
pub fn print_pruned(run: &Run<'_>, history: &History, pruned: Pruned) -> Result<(), Failure> {
    if run.is_json {
        return list_pruned(run, history, pruned);
    }
    let Pruned { mark, sweep } = pruned;
    let Some(sweep) = sweep else {
        return print_outcome(run, history, mark);
    };
    if let Ok(mark) = mark {
        print_outcome(run, history, Ok(mark))?;
    }
    print_outcome(run, history, sweep)
}

fn list_pruned(run: &Run<'_>, history: &History, pruned: Pruned) -> Result<(), Failure> {
    let Pruned { mark, sweep } = pruned;
    let marked = made_of(&mark);
    let swept = match &sweep {
        Some(sweep) => made_of(sweep),
        None => None,
    };
    print_list(run, history, marked, swept)?;
    let last = match sweep {
        Some(sweep) => sweep,
        None => mark,
    };
    match last {
        Ok(Outcome::Made(made)) => settled(run, made),
        last => print_outcome(run, history, last),
    }
}

fn made_of(came: &Result<Outcome, NotDone>) -> Option<Made> {
    match came {
        Ok(Outcome::Made(made)) => Some(*made),
        _ => None,
    }
}

/// Prints those that were made as one list. Where none was, nothing is printed.
fn print_list(
    run: &Run<'_>,
    history: &History,
    marked: Option<Made>,
    swept: Option<Made>,
) -> Result<(), Failure> {
    let (first, second) = match (marked, swept) {
        (None, None) => return Ok(()),
        (Some(marked), swept) => (marked, swept),
        (None, Some(swept)) => (swept, None),
    };
    run.print(b"[")?;
    print_made(run, history, first, Way::Forth)?;
    if let Some(second) = second {
        run.print(b",")?;
        print_made(run, history, second, Way::Forth)?;
    }
    run.print(b"]\n")
}
