//! A caller of the library. Over a folder and over a shelf of its own it arms a veto and a watch of its own, backs up,
//! tries to forget what a filter of its own takes, takes the backup back, and says what became of each.
#![tactic(auto)]

ghost use Rattle.keepd.specs.Armed.{HasSums};

mod logged_shelf;
mod stop;

use crate::logged_shelf::LoggedShelf;
use crate::stop::Stop;
use keepd::{
    AskFacts, AskOutline, BackupFacts, Book, Count, CountOutline, Cut, Filter, Job, Limit, Measure,
    Outline, Pick, Policy, Settings, Shelf, SnapFacts, Task, Veto, Watch, files_written,
    open_folder, plan, snapshots_dropped,
};
use std::alloc::Global;
use std::fmt::Write;
use std::process::ExitCode;

fn main(rt: HostRuntime) -> ExitCode {
    let mut out = String::new(rt.alloc());
    let ended = try_both(&rt, &mut out);
    let said = print!(rt; "{out}");
    if let Err(stop) = &ended {
        let _ = eprintln!(rt; "keep_caller: {stop}");
    }
    if ended.is_err() || said.is_err() {
        return ExitCode::FAILURE;
    }
    ExitCode::SUCCESS
}

fn try_both(rt: &HostRuntime, out: &mut String) -> Result<(), Stop> {
    let alloc = rt.alloc();
    out.push_str("over a folder\n")?;
    work(alloc, open_folder(rt, "kept")?, out)?;
    out.push_str("over a shelf of its own\n")?;
    let mut changes = 0;
    work(alloc, LoggedShelf::new(alloc, &mut changes), out)?;
    writeln!(out, "{changes} calls changed the shelf")?;
    Ok(())
}

/// Works with a repository on this shelf: a veto spares snapshots, a watch counts files, and a filter takes the
/// snapshots of one host.
fn work<S: Shelf>(alloc: Global, shelf: S, out: &mut String) -> Result<(), Stop> {
    let mut book = Book::open(alloc, shelf)?;
    let ask: AskOutline = Box::new(alloc, |outline: &Outline| snapshots_dropped(outline) > 0)?;
    let name = String::from_str(alloc, "spare-snapshots")?;
    book.add_veto(Veto::new(name, Limit::SnapshotDropsAtMost(0), ask))?;
    let ask: CountOutline = Box::new(alloc, |outline: &Outline| files_written(outline))?;
    let name = String::from_str(alloc, "files written")?;
    book.add_watch(Watch::new(name, Measure::FilesWritten, ask))?;
    let ask: AskFacts = Box::new(alloc, |facts: &SnapFacts| facts.host.as_str() == "ada")?;
    let rule = Pick::Host(String::from_str(alloc, "ada")?);
    let of_ada = Filter::new(String::from_str(alloc, "of ada")?, rule, ask);
    keep_and_forget(alloc, &mut book, &of_ada, out)
}

/// Backs up twice, tries to forget the first of it, takes the second back, and says what became of each.
fn keep_and_forget<S: Shelf>(
    alloc: Global,
    book: &mut Book<S>,
    filter: &Filter,
    out: &mut String,
) -> Result<(), Stop>
    requires { HasSums book.old }
{
    let settings = Settings {
        cut: Cut::after(4096),
        now: 1_700_000_000,
    };
    let first = back_up(alloc, book, settings, 1, "one")?;
    let second = back_up(alloc, book, settings, 2, "two")?;
    writeln!(out, "backed up as changes {first} and {second}")?;
    let task = Task::Forget(newest(alloc)?);
    let job = Job::Filtered { filter, task };
    let planned = plan(alloc, &book.ledger().view(), settings, &job)?;
    match book.commit(planned) {
        Ok(told) => writeln!(out, "forgotten by change {}", told.number)?,
        Err(refusal) => writeln!(out, "not forgotten: {refusal}")?,
    }
    let told = book.undo(2)?;
    writeln!(
        out,
        "change {} is taken back by event {}",
        told.number, told.at
    )?;
    for watch in book.totals() {
        writeln!(out, "{}: {}", watch.name(), watch.total())?;
    }
    Ok(())
}

/// Backs up a note on a day of January, and answers the number of the change.
fn back_up<S: Shelf>(
    alloc: Global,
    book: &mut Book<S>,
    settings: Settings,
    day: u8,
    note: &str,
) -> Result<u64, Stop>
    requires { HasSums book.old }
    ensures { HasSums book.new }
{
    let facts = facts_of(alloc, day)?;
    let path = String::from_str(alloc, "/home/note")?;
    let files = vec![in alloc; (path, Vec::from_slice(alloc, note.as_bytes())?)]?;
    let job: Job<Filter> = Job::Backup { facts, files };
    let planned = plan(alloc, &book.ledger().view(), settings, &job)?;
    let told = book.commit(planned)?;
    Ok(told.number)
}

/// Who backs up on this day of January.
fn facts_of(alloc: Global, day: u8) -> Result<BackupFacts, Stop> {
    Ok(BackupFacts {
        host: String::from_str(alloc, "ada")?,
        user: String::from_str(alloc, "ada")?,
        paths: vec![in alloc; String::from_str(alloc, "/home/note")?]?,
        time: format!(in alloc; "2024-01-0{day}T00:00:00Z")?,
    })
}

/// Keeps the newest one alone.
fn newest(alloc: Global) -> Result<Policy, Stop> {
    Ok(Policy {
        last: Count::new(1),
        daily: None,
        weekly: None,
        monthly: None,
        yearly: None,
        tags: Vec::new(alloc),
    })
}
