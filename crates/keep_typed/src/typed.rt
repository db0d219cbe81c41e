ghost use Rattle.std.specs.Prelude.{map};
ghost use Rattle.clap.specs.Words.{subcommand_rows_of};
ghost use Rattle.keep_words.specs.Read.{rows_in};
ghost use Rattle.keep_typed.specs.Typed.{IsAsked, IsWords, ReadsCommand, ReadsMatches, ReadsWords};

use crate::changes::changing;
use crate::reads::reading;
use clap::error::ErrorKind;
use clap::{ArgMatches, Error};
use keep_forms::keep_command;
use keep_words::{Command, Words, flag, number, refusal, text};
use std::alloc::Global;

/// Reads the words of the process, of which the first is the program's name.
///
/// An error prints itself: help and the version have the status 0, other words that aren't taken 2.
pub fn read_words<'a>(alloc: Global, words: &'a [&'a str]) -> Result<Words<'a>, Error>
    ensures { ReadsWords (map (λ word. word.now) words.entry.now) result }
{
    let command = keep_command(alloc)?;
    match command.try_get_matches_from(words) {
        Ok(matches) => read_matches(alloc, &matches),
        Err(error) => Err(error),
    }
}

const USAGE: &str = "keep [OPTIONS] <COMMAND>";

fn read_matches<'a>(alloc: Global, matches: &ArgMatches<'a>) -> Result<Words<'a>, Error>
    ensures { ReadsMatches (rows_in matches.now) (subcommand_rows_of matches.now) result }
{
    let Some((name, below)) = matches.subcommand() else {
        return Err(refusal(alloc, USAGE, ErrorKind::MissingSubcommand, "name a command"));
    };
    let command = read_command(alloc, name, below)?;
    Ok(words_of(matches, below, command))
}

fn words_of<'a>(top: &ArgMatches<'a>, below: &ArgMatches<'a>, command: Command<'a>) -> Words<'a>
    ensures { (name : _) → IsAsked name (rows_in below.now) command.entry → IsWords (rows_in top.now) name (rows_in below.now) result }
{
    let wait = number(below, "wait").or(number(top, "wait"));
    Words {
        repo: text(below, "repo").or(text(top, "repo")),
        json: flag(below, "json") || flag(top, "json"),
        wait: wait.unwrap_or(10),
        command,
    }
}

fn read_command<'a>(alloc: Global, name: &str, below: &ArgMatches<'a>) -> Result<Command<'a>, Error>
    ensures { ReadsCommand name.now (rows_in below.now) result }
{
    if let Some(command) = changing(alloc, name, below)? {
        return Ok(command);
    }
    match reading(alloc, name, below)? {
        Some(command) => Ok(command),
        None => Err(refusal(
            alloc,
            USAGE,
            ErrorKind::InvalidSubcommand,
            "no such command",
        )),
    }
}
