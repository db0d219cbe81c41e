use crate::listings::state::State;
use crate::stop::Stop;
use keep_named::{NamedError, named, snapshots_of};
use std::fmt::Write;

/// Answers which snapshots there are and which of them texts mean, if the line asks for it.
pub(crate) fn answer(
    state: &State,
    verb: &str,
    rest: &str,
    out: &mut String,
) -> Result<bool, Stop> {
    match verb {
        "rows" => rows(state, out)?,
        "named" => meant(state, rest, out)?,
        _ => return Ok(false),
    }
    Ok(true)
}

fn rows(state: &State, out: &mut String) -> Result<(), Stop> {
    let catalog = state.view().read_past(state.alloc)?;
    for row in &snapshots_of(state.alloc, &catalog, &state.history)? {
        let (id, instant, time) = (row.id, row.instant, row.snap.time.as_str());
        writeln!(out, "row {id} {instant} {time}")?;
    }
    Ok(())
}

fn meant(state: &State, text: &str, out: &mut String) -> Result<(), Stop> {
    let catalog = state.view().read_past(state.alloc)?;
    let rows = snapshots_of(state.alloc, &catalog, &state.history)?;
    match named(state.alloc, state.live.repo(), &state.history, &rows, text) {
        Ok(id) => writeln!(out, "named {id}")?,
        Err(why) => writeln!(out, "named {}", word(why))?,
    }
    Ok(())
}

fn word(why: NamedError) -> &'static str {
    match why {
        NamedError::NoneLatest => "NoneLatest",
        NamedError::NoneAdded => "NoneAdded",
        NamedError::SeveralAdded => "SeveralAdded",
        NamedError::NoneBegins => "NoneBegins",
        NamedError::SeveralBegin => "SeveralBegin",
        NamedError::Memory => "Memory",
    }
}
