//! The program `keepd`: answers the script on its standard input.
#![tactic(auto)]

ghost use Rattle.std.specs.Prelude.{◌≡◌};
ghost use Rattle.std.specs.Process.{exit_status};
ghost use Rattle.keep_command.specs.Ending.{code_of};

mod crew_run;
mod operators;

use crate::operators::Operators;
use keep_command::{BadOptions, Crew, Ending, HostShelves, keepd, report_ending};
use keep_hashing::Hashing;
use keep_streams::fill_streams;
use keep_threads::Processors;
use std::alloc::AllocError;
use std::env;
use std::io::{BufWriter, ErrorKind, Write};
use std::process::ExitCode;

/// The words behind the program's name. One that isn't UTF-8 is no option.
fn read_words(rt: &HostRuntime) -> Result<Vec<String>, BadOptions> {
    match env::args(rt) {
        Ok(words) => Ok(words.skip(1).collect(rt.alloc())?),
        Err(error) if error.kind() == ErrorKind::OutOfMemory => Err(BadOptions::Memory),
        Err(_) => Err(BadOptions::Refused),
    }
}

/// Runs the program between standard input and output, with this crew. What an opening has hashed is hashed by this.
fn serve<'a, H: Hashing + Copy, C: Crew>(
    rt: &HostRuntime,
    hashing: H,
    crew: &C,
    words: &'a [String],
) -> Result<Ending<'a>, AllocError> {
    let alloc = rt.alloc();
    let words: Vec<&str> = words.iter().map(|word| word.as_str()).collect(alloc)?;
    let Ok(mut writer) = BufWriter::new(alloc, rt.stdout()) else {
        return Err(AllocError);
    };
    let shelves = HostShelves::new(rt, hashing);
    let mut reader = rt.stdin();
    let words = words.as_slice();
    Ok(keepd(alloc, &shelves, crew, words, &mut reader, &mut writer))
}

/// Says on standard error why the program ended, and answers its exit status, whether that could be said or not.
fn exit_code<E: Write>(ending: Ending<'_>, errors: &mut E) -> ExitCode
    ensures { exit_status result ≡ code_of ending.entry }
{
    let (code, _) = report_ending(ending, errors);
    ExitCode::from(code)
}

fn main(rt: HostRuntime) -> ExitCode {
    if fill_streams(&rt).is_err() {
        return ExitCode::from(1);
    }
    let words = match read_words(&rt) {
        Ok(words) => words,
        Err(error) => return exit_code(Ending::from(error), &mut rt.stderr()),
    };
    let crew = Operators::new(&rt);
    match serve(&rt, Processors::of(&rt), &crew, words.as_slice()) {
        Ok(ending) => exit_code(ending, &mut rt.stderr()),
        Err(error) => exit_code(Ending::from(error), &mut rt.stderr()),
    }
}
