//! Opens a desk over a book in memory, and has threads take views of it beside others that change it. It tells how much
//! each of them did and how long that took, so that what a desk bears can be measured.
#![tactic(auto)]

mod bench_crew;
mod bench_files;
mod desk_run;
mod done;
mod worker;

use crate::bench_crew::{Crew, crew_of};
use crate::desk_run::{Ran, run};
use anyhow::{Result, anyhow};
use std::env;
use std::process::ExitCode;

/// The exit status of a run in which a thread was refused.
const REFUSED: u8 = 1;
/// The exit status of a command line that isn't understood.
const BAD_OPTIONS: u8 = 2;

/// The crew that the command line asks for, if it is three words that name one.
fn crew_asked(rt: &HostRuntime) -> Result<Option<Crew>> {
    let mut words = env::args(rt)?;
    let _program = words.next();
    let (Some(readers), Some(operators), Some(changes), None) = (
        words.next(),
        words.next(),
        words.next(),
        words.next(),
    ) else {
        return Ok(None);
    };
    Ok(crew_of(&readers, &operators, &changes))
}

/// Tells how many events the book has in the end, and on standard error what each thread did, and for how many
/// nanoseconds, by the clock and of a processor.
fn print_counts(rt: &HostRuntime, crew: &Crew, ran: &Ran) -> Result<()> {
    println!(rt; "length {}", ran.length)?;
    for (place, done) in ran.done.iter().enumerate() {
        let done = done.ok_or(anyhow!("a thread was refused"))?;
        let what = if place < crew.operators {
            "events"
        } else {
            "views"
        };
        let clock = done.clock.as_nanos();
        let processor = done.processor.as_nanos();
        eprintln!(rt; "{what} {} clock {clock} processor {processor}", done.count)?;
    }
    Ok(())
}

fn main(rt: HostRuntime) -> ExitCode {
    let Ok(Some(crew)) = crew_asked(&rt) else {
        let _ = eprintln!(rt; "usage: keep_desk_bench READERS OPERATORS CHANGES");
        return ExitCode::from(BAD_OPTIONS);
    };
    match run(&rt, rt.alloc(), &crew).and_then(|ran| print_counts(&rt, &crew, &ran)) {
        Ok(()) => ExitCode::SUCCESS,
        Err(error) => {
            let _ = eprintln!(rt; "keep_desk_bench: {error}");
            ExitCode::from(REFUSED)
        }
    }
}
