use crate::case_words;
use crate::states::shown_lists::{show_ids, show_names};
use crate::states::state::{State, no_change};
use crate::stop::Stop;
use keep_change::{Change, Outline, Turn, What};
use keep_ledger::{Refusal, Request, Told};
use keep_replies::{Accepted, Refused};
use keep_repo::Repo;
use std::alloc::{AllocError, Global};
use std::fmt::Write;
use std::mem;

/// Answers what is asked of the held change, if the line asks for it.
pub(crate) fn answer(
    state: &mut State,
    verb: &str,
    rest: &str,
    out: &mut String,
) -> Result<bool, Stop> {
    match verb {
        "commit" => commit(state, out)?,
        "outline" => show_outline(state.alloc, &state.held.change, rest, out)?,
        _ => return Ok(print_effect(&state.held.change, state.ground.live(), verb, out)?),
    }
    Ok(true)
}

/// Commits the held change.
fn commit(state: &mut State, out: &mut String) -> Result<(), Stop> {
    let planned = mem::replace(&mut state.held, no_change(state.alloc));
    ask(state, Request::Commit(planned), out)
}

/// Tells what the verb asks of the change where the repository is this, if it asks anything.
fn print_effect(
    change: &Change,
    repo: &Repo,
    verb: &str,
    out: &mut String,
) -> Result<bool, AllocError> {
    match verb {
        "well-formed" => writeln!(out, "well-formed {}", yes(change.well_formed()))?,
        "facets" => writeln!(out, "facets {}", change.facet_count())?,
        "meets" => print_met(change, repo, out)?,
        "turn" => turn(change, repo, out)?,
        _ => return Ok(false),
    }
    Ok(true)
}

fn print_met(change: &Change, repo: &Repo, out: &mut String) -> Result<(), AllocError> {
    match change.meets(repo) {
        Ok(()) => writeln!(out, "met"),
        Err(facet) => writeln!(out, "unmet {facet}"),
    }
}

pub(crate) fn yes(holds: bool) -> &'static str {
    if holds { "yes" } else { "no" }
}

/// Writes what a ledger over the repository replies.
pub(crate) fn ask(state: &mut State, request: Request, out: &mut String) -> Result<(), Stop> {
    let reply = state.ground.ask(state.alloc, request)?;
    show_reply(reply, out)?;
    Ok(())
}

fn show_reply(reply: Result<Told, Refusal>, out: &mut String) -> Result<(), AllocError> {
    match reply {
        Ok(told) => writeln!(out, "{}", Accepted(told)),
        Err(refusal) => writeln!(out, "{}", Refused(refusal)),
    }
}

fn show_outline(
    alloc: Global,
    change: &Change,
    number: &str,
    out: &mut String,
) -> Result<(), Stop> {
    let outline = Outline::of(alloc, What::Undo, case_words::number(number)?, change)?;
    write_outline(&outline, out)?;
    Ok(())
}

fn write_outline(outline: &Outline, out: &mut String) -> Result<(), AllocError> {
    let (number, undo) = (outline.number, yes(outline.what == What::Undo));
    writeln!(out, "outline {number} undo {undo}")?;
    show_names("adds", outline.adds.as_slice(), out)?;
    show_names("drops", outline.drops.as_slice(), out)?;
    show_ids("sets", outline.sets.as_slice(), out)?;
    show_ids("clears", outline.clears.as_slice(), out)
}

/// Makes the change and takes it back, if it can be made, and writes what the repository is in between and whether it
/// is as before.
fn turn(change: &Change, before: &Repo, out: &mut String) -> Result<(), AllocError> {
    let mut repo = before.copy()?;
    if make_and_take_back(change, &mut repo, out)? {
        writeln!(out, "same {}", yes(repo.same_as(before)))
    } else {
        writeln!(out, "not made")
    }
}

/// Whether the change can be made. It is made and taken back then; either way it is begun and abandoned first.
fn make_and_take_back(
    change: &Change,
    repo: &mut Repo,
    out: &mut String,
) -> Result<bool, AllocError> {
    if !change.well_formed() {
        return Ok(false);
    }
    if let Err(_) = change.meets(repo) {
        return Ok(false);
    }
    change.begin(Turn::Make, repo)?;
    change.abandon(Turn::Make, repo);
    change.apply(repo)?;
    show_repo(repo, out)?;
    change.begin(Turn::TakeBack, repo)?;
    change.abandon(Turn::TakeBack, repo);
    change.unapply(repo)?;
    Ok(true)
}

/// Writes the files with their lengths, and the marks with their moments.
pub(crate) fn show_repo(repo: &Repo, out: &mut String) -> Result<(), AllocError> {
    let (names, _) = repo.list()?;
    for name in &names {
        let length = repo.get(*name).map_or(0, |bytes| bytes.as_slice().len());
        writeln!(out, "{name} {length}")?;
    }
    for (pack, mark) in &repo.marks()? {
        let moment = mark.moment;
        writeln!(out, "mark {pack} {moment}")?;
    }
    Ok(())
}
