use crate::case_words;
use crate::states::changing::ask;
use crate::states::shown_lists::show_change;
use crate::states::state::{State, no_change};
use crate::stop::Stop;
use keep_backup::{BackupFacts, plan_backup};
use keep_build::{Cut, store};
use keep_change::{Change, Planned};
use keep_jobs::{Settings, plan, resolve};
use keep_ledger::Request;
use keep_lines::{Command, JobLine, LineError, parse};
use keep_names::BlobType;
use keep_plan::{PlanError, Stored};
use keep_replies::Refused;
use std::alloc::{AllocError, Global};
use std::fmt::Write;
use std::mem;

/// After how many bytes the backups of lines cut files.
const CUT: u32 = 1_048_576;

/// Plans, if the line asks for it. What is planned is held and written.
pub(crate) fn answer(
    state: &mut State,
    verb: &str,
    rest: &str,
    out: &mut String,
) -> Result<bool, Stop> {
    let alloc = state.alloc;
    match verb {
        "now" => state.now = case_words::moment(rest)?,
        "plan" => {
            let planned = planned(state, rest)?;
            hold(state, planned, out)?;
        }
        "do" => {
            let planned = planned(state, rest)?;
            commit(state, planned, out)?;
        }
        "store" => {
            let blobs = blobs(alloc, rest)?;
            let stored = store(alloc, &state.ground.view(), &blobs);
            hold(state, stored.map(|stored| as_planned(alloc, stored)), out)?;
        }
        "file" => add_file(state, rest)?,
        "backup" => {
            let planned = back_up(state, rest)?;
            hold(state, planned, out)?;
        }
        _ => return Ok(false),
    }
    Ok(true)
}

/// Holds what is planned and writes its lists, or why nothing is planned.
fn hold(
    state: &mut State,
    planned: Result<Planned, PlanError>,
    out: &mut String,
) -> Result<(), AllocError> {
    match planned {
        Ok(planned) => {
            state.held = planned;
            show_change(&state.held.change, out)?;
            let seen = state.held.seen;
            writeln!(out, "seen {seen}")
        }
        Err(refusal) => writeln!(out, "{}", Refused(refusal)),
    }
}

/// Commits what is planned at once.
fn commit(
    state: &mut State,
    planned: Result<Planned, PlanError>,
    out: &mut String,
) -> Result<(), Stop> {
    match planned {
        Ok(planned) => ask(state, Request::Commit(planned), out)?,
        Err(refusal) => writeln!(out, "{}", Refused(refusal))?,
    }
    Ok(())
}

/// The job that a line of the script language says.
fn said_by(alloc: Global, line: &str) -> Result<JobLine, Stop> {
    match parse(alloc, line.as_bytes()) {
        Ok(Some(Command::Job(job))) => Ok(job),
        Err(LineError::Memory) => Err(Stop::Memory),
        _ => Err(Stop::NoLine),
    }
}

/// What the job of the line is planned as.
fn planned(state: &State, line: &str) -> Result<Result<Planned, PlanError>, Stop> {
    let said = said_by(state.alloc, line)?;
    plan_said(state, said)
}

/// What this job is planned as, with what the kit has for its names.
fn plan_said(state: &State, said: JobLine) -> Result<Result<Planned, PlanError>, Stop> {
    let settings = Settings {
        cut: Cut::after(CUT),
        now: state.now,
    };
    match resolve(state.alloc, &state.kit, said) {
        Ok(job) => Ok(plan(state.alloc, &state.ground.view(), settings, &job)),
        Err(LineError::Memory) => Err(Stop::Memory),
        Err(LineError::Bad(_)) => Err(Stop::NoLine),
    }
}

/// Blobs by their types and texts.
fn blobs(alloc: Global, text: &str) -> Result<Vec<(BlobType, Vec<u8>)>, Stop> {
    let mut blobs = Vec::new(alloc);
    for word in text.split(' ') {
        let (blob_type, text) = word.split_once('=').ok_or(Stop::NoLine)?;
        let bytes = Vec::from_slice(alloc, text.as_bytes())?;
        blobs.push((case_words::blob_type(blob_type)?, bytes))?;
    }
    Ok(blobs)
}

/// What is stored, as the lists of a change.
fn as_planned(alloc: Global, stored: Stored) -> Planned {
    let mut change = Change::new(alloc);
    change.adds = stored.adds;
    change.clears = stored.clears;
    change.present = stored.present;
    change.unmarked = stored.unmarked;
    Planned { change, seen: 0 }
}

/// Adds a file that has a byte so many times to those that a backup is to have.
fn add_file(state: &mut State, rest: &str) -> Result<(), Stop> {
    let (path, rest) = case_words::pair(rest)?;
    let (count, byte) = case_words::pair(rest)?;
    let count = case_words::short_number(count)?;
    let byte = case_words::byte(byte)?;
    let bytes = vec![in state.alloc; byte; count as usize]?;
    state
        .files
        .push((String::from_str(state.alloc, path)?, bytes))?;
    Ok(())
}

/// Plans a backup of these files by its host, user, path, time and cut.
fn back_up(state: &State, rest: &str) -> Result<Result<Planned, PlanError>, Stop> {
    let alloc = state.alloc;
    let (host, rest) = case_words::pair(rest)?;
    let (user, rest) = case_words::pair(rest)?;
    let (path, rest) = case_words::pair(rest)?;
    let (time, cut) = case_words::pair(rest)?;
    let facts = facts_of(alloc, host, user, path, time)?;
    let cut = case_words::short_number(cut)?;
    if cut == 0 || cut > 8_388_608 {
        return Err(Stop::NoLine);
    }
    let view = state.ground.view();
    Ok(plan_backup(alloc, &view, &state.files, &facts, Cut::after(cut)))
}

fn facts_of(
    alloc: Global,
    host: &str,
    user: &str,
    path: &str,
    time: &str,
) -> Result<BackupFacts, AllocError> {
    let mut paths = Vec::new(alloc);
    paths.push(String::from_str(alloc, path)?)?;
    Ok(BackupFacts {
        host: String::from_str(alloc, host)?,
        user: String::from_str(alloc, user)?,
        paths,
        time: String::from_str(alloc, time)?,
    })
}
