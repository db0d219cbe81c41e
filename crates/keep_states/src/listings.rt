//! Answers a table of cases on what snapshots have by path, and on the snapshots that texts mean.

mod listing_lines;
mod meaning;
mod pack_lines;
mod state;

use crate::listings::state::State;
use crate::stop::Stop;
use anyhow::anyhow;
use std::fmt::Write;

/// Answers the lines of the table.
pub(crate) fn answer(rt: &HostRuntime, lines: &[String]) -> anyhow::Result<()> {
    let mut state = State::new(rt.alloc());
    let mut out = String::new(rt.alloc());
    for line in lines {
        if let Err(stop) = step(&mut state, line.as_str(), &mut out) {
            return Err(anyhow!("{stop}: {line}"));
        }
    }
    print!(rt; "{out}")?;
    Ok(())
}

/// Does what the line asks for, and writes the answer.
fn answer_line(state: &mut State, line: &str, out: &mut String) -> Result<(), Stop> {
    let line = line.replace(state.alloc, "$", state.last.as_str())?;
    let (verb, rest) = line.split_once(' ').unwrap_or((line.as_str(), ""));
    if pack_lines::answer(state, verb, rest)? {
        return Ok(());
    }
    if meaning::answer(state, verb, rest, out)? {
        return Ok(());
    }
    listing_lines::answer(state, verb, rest, out)
}

/// Begins a case, passes over a comment, or answers a line of a case.
fn step(state: &mut State, line: &str, out: &mut String) -> Result<(), Stop> {
    if line.is_empty() || line.starts_with('#') {
        return Ok(());
    }
    if line.starts_with("= ") {
        state.begin();
        writeln!(out, "{line}")?;
        return Ok(());
    }
    answer_line(state, line, out)
}
