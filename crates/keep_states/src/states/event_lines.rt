use crate::case_words;
use crate::states::changing::{ask, show_repo, yes};
use crate::states::shown_lists::show_ids;
use crate::states::state::State;
use crate::stop::Stop;
use keep_ledger::Request;
use keep_replies::Counts;
use std::alloc::AllocError;
use std::fmt::Write;

/// Answers what is asked of the ledger and its repository, if the line asks for it.
pub(crate) fn answer(
    state: &mut State,
    verb: &str,
    rest: &str,
    out: &mut String,
) -> Result<bool, Stop> {
    match verb {
        "undo" | "redo" | "empty" => ask_event(state, verb, rest, out)?,
        "length" => writeln!(out, "length {}", state.ground.view().length())?,
        "count" => count(state, out)?,
        "list" => show_repo(state.ground.live(), out)?,
        "filled" => filled(state, rest, out)?,
        "known" => known(state, out)?,
        _ => return Ok(false),
    }
    Ok(true)
}

/// Asks for an event of the change of this number.
fn ask_event(state: &mut State, verb: &str, number: &str, out: &mut String) -> Result<(), Stop> {
    let number = case_words::number(number)?;
    let request = match verb {
        "undo" => Request::Undo(number),
        "redo" => Request::Redo(number),
        _ => Request::Empty(number),
    };
    ask(state, request, out)
}

/// Writes whether the facet is filled.
fn filled(state: &State, facet: &str, out: &mut String) -> Result<(), Stop> {
    let facet = case_words::facet(facet)?;
    let filled = state.ground.live().facet_filled(facet);
    writeln!(out, "{facet} {}", yes(filled))?;
    Ok(())
}

fn count(state: &State, out: &mut String) -> Result<(), AllocError> {
    let repo = state.ground.live();
    let (files, marks) = (repo.file_count(), repo.mark_count());
    writeln!(out, "{}", Counts { files, marks })
}

/// Writes the snapshots that the book knows.
fn known(state: &State, out: &mut String) -> Result<(), AllocError> {
    let known = state.ground.view().known(state.alloc)?;
    for id in &known {
        writeln!(out, "known {id}")?;
    }
    writeln!(out, "known {}", known.len())
}
