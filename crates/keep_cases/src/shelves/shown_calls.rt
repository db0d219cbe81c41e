use crate::shelves::call::Call;
use crate::shelves::running::{Answered, CaseShelf, recording};
use crate::shelves::shelf_stop::Stop;
use keep_book::Book;
use keep_names::FileName;
use keep_repo::Repo;
use keep_rope::Rope;
use keep_script::RunStatus;
use keep_shelf::{Key, Shelf};
use std::alloc::{AllocError, Global};
use std::fmt::Write;
use std::str;

/// How a run is shown.
#[derive(Clone, Copy)]
pub(crate) enum Form {
    /// Each line with its answer and its calls.
    Whole,
    /// Of each line whose calls are counted the answer and how many calls it made, in one line.
    Brief,
}

/// Writes what the line was answered, which calls it made, or how many, and how its run ended; and `behind` where the
/// live files on the shelf aren't those of the repository.
pub(crate) fn show_line(
    alloc: Global,
    form: Form,
    answered: &Answered<'_>,
    book: &Book<CaseShelf>,
    out: &mut String,
) -> Result<(), Stop> {
    let calls = book.ledger().shelf().calls()?;
    let calls = calls.get(answered.before..).unwrap_or(&[]);
    let Ok(text) = str::from_utf8(&answered.text) else {
        return Err(Stop::NoEnd);
    };
    let ended = word_of(&answered.status).ok_or(Stop::NoEnd)?;
    let behind = behind_word(alloc, book)?;
    match form {
        Form::Whole => {
            writeln!(out, "| {}", answered.line)?;
            out.push_str(text)?;
            show_calls(alloc, calls, out)?;
            writeln!(out, "-> {ended}{behind}")?;
        }
        Form::Brief => {
            for part in text.lines() {
                write!(out, "{part}; ")?;
            }
            writeln!(out, "{} calls; {ended}{behind}", calls.len())?;
        }
    }
    Ok(())
}

/// Writes the script, in whole, what it was answered, and how its run ended.
pub(crate) fn show_script(
    form: Form,
    script: &str,
    text: &[u8],
    status: &RunStatus,
    out: &mut String,
) -> Result<(), Stop> {
    let Ok(text) = str::from_utf8(text) else {
        return Err(Stop::NoEnd);
    };
    let ended = word_of(status).ok_or(Stop::NoEnd)?;
    match form {
        Form::Whole => {
            for line in script.lines() {
                writeln!(out, "| {line}")?;
            }
            writeln!(out, "{text}-> {ended}")?;
        }
        Form::Brief => {
            for part in text.lines() {
                write!(out, "{part}; ")?;
            }
            writeln!(out, "{ended}")?;
        }
    }
    Ok(())
}

pub(crate) fn show_calls(
    alloc: Global,
    calls: &[Call],
    out: &mut String,
) -> Result<(), AllocError> {
    for call in calls {
        call.show(alloc, out)?;
    }
    Ok(())
}

/// How the run of a script ended that was opened, if it can end so.
fn word_of(status: &RunStatus) -> Option<&'static str> {
    match status {
        RunStatus::Done => Some("Done"),
        RunStatus::Faulted => Some("Faulted"),
        RunStatus::BadLine(_, _) => Some("BadLine"),
        _ => None,
    }
}

/// What is written where the live files on the shelf aren't those of the repository, else nothing.
pub(crate) fn behind_word(alloc: Global, book: &Book<CaseShelf>) -> Result<&'static str, Stop> {
    if is_behind(alloc, book)? {
        return Ok("; behind");
    }
    Ok("")
}

/// Whether the repository has just what was found on the shelf under this name.
fn is_in(
    alloc: Global,
    repo: &Repo,
    name: FileName,
    found: Option<Rope>,
) -> Result<bool, AllocError> {
    let bytes = match found {
        Some(rope) => Some(rope.bytes(alloc)?),
        None => None,
    };
    Ok(bytes.as_ref() == repo.get(name))
}

/// Whether the live files on the shelf aren't those of the repository.
fn is_behind(alloc: Global, book: &Book<CaseShelf>) -> Result<bool, Stop> {
    let recording = recording(book);
    let mut shelf = recording.content_at(recording.calls())?;
    let repo = book.ledger().live();
    let mut names = Vec::new(alloc);
    for key in &shelf.list()? {
        if let Key::Live(name) = *key {
            if !is_in(alloc, repo, name, shelf.read(*key)?)? {
                return Ok(true);
            }
            names.push(name)?;
        }
    }
    Ok(names.len() != repo.file_count())
}
