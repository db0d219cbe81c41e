//! Answers a table of cases that no script can say: files under any name, marks of any moment, changes by their
//! lists, and what planners and readers make of such repositories.

mod changing;
mod event_lines;
mod fill_lines;
mod ground;
mod list_lines;
mod placing;
mod plan_lines;
mod reaching;
mod restore_lines;
mod shown_lists;
mod state;

use crate::case_words;
use crate::states::state::{State, kit_of};
use crate::stop::Stop;
use anyhow::anyhow;
use keep_catalog::Catalog;
use keep_jobs::Kit;
use keep_plan::{AskFacts, Filter, Pick};
use keep_snap::SnapFacts;
use std::alloc::AllocError;
use std::fmt::Write;

/// Answers the lines of the table. They may name the filter `all`.
pub(crate) fn answer(rt: &HostRuntime, lines: &[String]) -> anyhow::Result<()> {
    let alloc = rt.alloc();
    let ask: AskFacts = Box::new(alloc, |_: &SnapFacts| true).map_err(AllocError::from)?;
    let all = Filter::new(String::from_str(alloc, "all")?, Pick::Any, ask);
    let kit = kit_of(alloc, all)?;
    answer_with(rt, lines, kit)
}

/// Answers the lines with these stored questions.
fn answer_with(rt: &HostRuntime, lines: &[String], kit: Kit) -> anyhow::Result<()> {
    answer_from(rt, lines, &mut State::new(rt.alloc(), kit))
}

/// Answers the lines from this state on.
fn answer_from(rt: &HostRuntime, lines: &[String], state: &mut State) -> anyhow::Result<()> {
    let mut out = String::new(rt.alloc());
    for line in lines {
        if let Err(stop) = step(state, line.as_str(), &mut out) {
            return Err(anyhow!("{stop}: {line}"));
        }
    }
    print!(rt; "{out}")?;
    Ok(())
}

/// Does what the line asks for, and writes the answer.
fn answer_line(state: &mut State, line: &str, out: &mut String) -> Result<(), Stop> {
    let line = line.replace(state.alloc, "$", state.last.as_str())?;
    let (verb, rest) = line.split_once(' ').unwrap_or((line.as_str(), ""));
    answer_verb(state, verb, rest, out)
}

/// Does what the verb asks for, and writes the answer.
fn answer_verb(state: &mut State, verb: &str, rest: &str, out: &mut String) -> Result<(), Stop> {
    if fill_lines::answer(state, verb, rest)? {
        return Ok(());
    }
    if list_lines::answer(state, verb, rest)? {
        return Ok(());
    }
    if changing::answer(state, verb, rest, out)? {
        return Ok(());
    }
    if event_lines::answer(state, verb, rest, out)? {
        return Ok(());
    }
    if plan_lines::answer(state, verb, rest, out)? {
        return Ok(());
    }
    if restore_lines::answer(state, verb, rest, out)? {
        return Ok(());
    }
    look_up(state, verb, rest, out)
}

/// Answers what is asked of the catalog.
fn look_up(state: &State, verb: &str, rest: &str, out: &mut String) -> Result<(), Stop> {
    let catalog = Catalog::read_past(state.alloc, state.ground.live())?;
    answer_by(&catalog, state, verb, rest, out)
}

/// Answers by what the catalog has.
fn answer_by(
    catalog: &Catalog,
    state: &State,
    verb: &str,
    rest: &str,
    out: &mut String,
) -> Result<(), Stop> {
    if placing::answer(state.alloc, catalog, verb, rest, out)? {
        return Ok(());
    }
    if reaching::answer(state.alloc, catalog, verb, rest, out)? {
        return Ok(());
    }
    match verb {
        "catalog" => placing::read(state, out)?,
        "unread" => placing::show_unread(&catalog.unread(state.alloc)?, out)?,
        _ => return Err(Stop::NoLine),
    }
    Ok(())
}

/// Answers the line so many times.
fn repeat(state: &mut State, rest: &str, out: &mut String) -> Result<(), Stop> {
    let (count, line) = case_words::pair(rest)?;
    for _ in 0..case_words::number(count)? {
        answer_line(state, line, out)?;
    }
    Ok(())
}

/// Begins a case, passes over a comment, or answers a line of a case.
fn step(state: &mut State, line: &str, out: &mut String) -> Result<(), Stop> {
    if line.is_empty() || line.starts_with('#') {
        return Ok(());
    }
    if line.starts_with("= ") {
        state.begin();
        writeln!(out, "{line}")?;
        return Ok(());
    }
    match line.strip_prefix("* ") {
        Some(rest) => repeat(state, rest, out),
        None => answer_line(state, line, out),
    }
}
