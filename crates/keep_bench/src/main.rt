//! Reads its input as a document, or as a pack that it hashes too, or backs it up as a file, or forgets as many
//! snapshots as it has bytes, or reads it as an entry of a journal, which it also writes again, and says how much there
//! was. Or it makes many changes of a book over many files, whatever the input, and undoes the first. So the time that
//! this takes, or the memory, can be measured.
#![tactic(auto)]

mod backup;
mod document;
mod entry_rate;
mod forget;
mod input;
mod pack;
mod task;
mod undo;

use crate::backup::{BackedUp, back_up};
use crate::document::measure;
use crate::entry_rate::is_written_so;
use crate::forget::forget;
use crate::input::read_all;
use crate::pack::{Summary, summarize};
use crate::task::{Task, task_named};
use crate::undo::{commits, undo_first};
use anyhow::Result;
use keep_entries::read_entry;
use std::env;
use std::process::ExitCode;

/// The exit status of an input that can't be read.
const REFUSED: u8 = 1;
/// The number of each entry that is read.
const ENTRY: u64 = 1;
/// The exit status of a command line that isn't understood.
const BAD_OPTIONS: u8 = 2;

/// The task that the command line names, if it is one word that names one.
fn task_asked(rt: &HostRuntime) -> Result<Option<Task>> {
    let mut words = env::args(rt)?;
    let _program = words.next();
    let (Some(word), None) = (words.next(), words.next()) else {
        return Ok(None);
    };
    Ok(task_named(&word))
}

/// Reads the input, and tells of it in a line.
fn measure_task(rt: &HostRuntime, task: Task) -> Result<()> {
    let bytes = read_all(rt.alloc(), rt.stdin())?;
    match task {
        Task::Document => measure_document(rt, &bytes),
        Task::Pack => measure_pack(rt, &bytes),
        Task::Backup => measure_backup(rt, bytes),
        Task::Forget => measure_forget(rt, &bytes),
        Task::Entry => measure_entry(rt, &bytes),
        Task::EntryAgain => measure_entry_again(rt, &bytes),
        Task::Commits => measure_commits(rt),
        Task::Undo => measure_undo(rt),
    }
}

fn measure_document(rt: &HostRuntime, bytes: &[u8]) -> Result<()> {
    let count = measure(rt.alloc(), bytes)?;
    println!(rt; "read {count}")?;
    Ok(())
}

fn measure_pack(rt: &HostRuntime, bytes: &[u8]) -> Result<()> {
    let Summary { id, entries } = summarize(rt.alloc(), bytes)?;
    let count = bytes.len();
    println!(rt; "pack {id} entries {entries} bytes {count}")?;
    Ok(())
}

fn measure_backup(rt: &HostRuntime, bytes: Vec<u8>) -> Result<()> {
    let BackedUp { snapshot, adds } = back_up(rt.alloc(), bytes)?;
    println!(rt; "snapshot {snapshot} adds {adds}")?;
    Ok(())
}

fn measure_forget(rt: &HostRuntime, bytes: &[u8]) -> Result<()> {
    match forget(rt.alloc(), bytes)? {
        Some(count) => println!(rt; "dropped {count}")?,
        None => println!(rt; "too many")?,
    }
    Ok(())
}

fn measure_entry(rt: &HostRuntime, bytes: &[u8]) -> Result<()> {
    drop(read_entry(rt.alloc(), ENTRY, bytes)?);
    let count = bytes.len();
    println!(rt; "entry {count}")?;
    Ok(())
}

fn measure_entry_again(rt: &HostRuntime, bytes: &[u8]) -> Result<()> {
    let alloc = rt.alloc();
    let entry = read_entry(alloc, ENTRY, bytes)?;
    let same = is_written_so(alloc, &entry, bytes)?;
    println!(rt; "written so: {same}")?;
    Ok(())
}

fn measure_commits(rt: &HostRuntime) -> Result<()> {
    let length = commits(rt.alloc())?;
    println!(rt; "length {length}")?;
    Ok(())
}

fn measure_undo(rt: &HostRuntime) -> Result<()> {
    let told = undo_first(rt.alloc())?;
    println!(rt; "told {} at {}", told.number, told.at)?;
    Ok(())
}

fn main(rt: HostRuntime) -> ExitCode {
    let Ok(Some(task)) = task_asked(&rt) else {
        let _ = eprintln!(rt;
            "usage: keep_bench document|pack|backup|forget|entry|entry-again|commits|undo < INPUT"
        );
        return ExitCode::from(BAD_OPTIONS);
    };
    match measure_task(&rt, task) {
        Ok(()) => ExitCode::SUCCESS,
        Err(error) => {
            let _ = eprintln!(rt; "keep_bench: {error}");
            ExitCode::from(REFUSED)
        }
    }
}
