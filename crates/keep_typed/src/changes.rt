ghost use Rattle.std.specs.Prelude.{IfOk};
ghost use Rattle.keep_words.specs.Faults.{fault_in};
ghost use Rattle.keep_words.specs.Read.{Reads, rows_in};
ghost use Rattle.keep_words.specs.Said.{Asks, IsBackup, IsRewrite};
ghost use Rattle.keep_typed.specs.Names.{is_changing, is_counting};

use crate::forgetting::forget;
use crate::reads::{change, place};
use crate::tagging::tag;
use crate::waiting::wait;
use clap::{ArgMatches, Error};
use keep_words::{Backup, Command, Rewrite, flag, text, texts};
use std::alloc::{AllocError, Global};

/// What the words behind this name ask, where it is the name of a command that makes or changes something.
pub fn changing<'a>(
    alloc: Global,
    name: &str,
    matches: &ArgMatches<'a>,
) -> Result<Option<Command<'a>>, Error>
    ensures { Reads (fault_in name.now (rows_in matches.now)) (Asks is_changing name.now (rows_in matches.now)) result }
{
    let command = match name {
        "backup" => Command::Backup(backup(alloc, matches)?),
        "forget" => Command::Forget(forget(alloc, matches)?),
        "tag" => Command::Tag(tag(alloc, matches)?),
        "rewrite" => Command::Rewrite(rewrite(alloc, matches)?),
        "repair" => Command::Repair,
        "mark" => Command::Mark,
        "sweep" => Command::Sweep {
            older_than: wait(alloc, matches, "keep sweep [--older-than SPAN]")?,
        },
        "prune" => Command::Prune {
            older_than: wait(alloc, matches, "keep prune [--older-than SPAN]")?,
        },
        _ => match counting(name, matches) {
            Some(command) => command,
            None => return Ok(None),
        },
    };
    Ok(Some(command))
}

/// What the words ask behind the name of a command that goes by numbers of changes, or by folders.
fn counting<'a>(name: &str, matches: &ArgMatches<'a>) -> Option<Command<'a>>
    ensures { Asks is_counting name.now (rows_in matches.now) result }
{
    match name {
        "init" => Some(Command::Init {
            folder: place(matches, "DIR"),
        }),
        "undo" => Some(Command::Undo {
            change: change(matches),
            with_all: flag(matches, "with-all"),
            yes: flag(matches, "yes"),
        }),
        "redo" => Some(Command::Redo {
            change: change(matches),
        }),
        "empty" => Some(Command::Empty {
            through: change(matches),
            yes: flag(matches, "yes"),
        }),
        "script" => Some(Command::Script {
            file: text(matches, "FILE"),
        }),
        "rescue" => Some(Command::Rescue {
            folder: place(matches, "DIR"),
            target: place(matches, "target"),
        }),
        _ => None,
    }
}

fn backup<'a>(alloc: Global, matches: &ArgMatches<'a>) -> Result<Backup<'a>, AllocError>
    ensures { IfOk result (IsBackup (rows_in matches.now)) }
{
    let paths = texts(alloc, matches, "PATH")?;
    let tags = texts(alloc, matches, "tag")?;
    let exclude = texts(alloc, matches, "exclude")?;
    Ok(Backup {
        paths,
        host: text(matches, "host"),
        time: text(matches, "time"),
        tags,
        exclude,
        dry_run: flag(matches, "dry-run"),
    })
}

fn rewrite<'a>(alloc: Global, matches: &ArgMatches<'a>) -> Result<Rewrite<'a>, AllocError>
    ensures { IfOk result (IsRewrite (rows_in matches.now)) }
{
    let exclude = texts(alloc, matches, "exclude")?;
    Ok(Rewrite {
        exclude,
        forget: flag(matches, "forget"),
        dry_run: flag(matches, "dry-run"),
    })
}
