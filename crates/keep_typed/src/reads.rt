ghost use Rattle.std.specs.Prelude.{◌≡◌, IfOk};
ghost use Rattle.keep_words.specs.Read.{place_of, rows_in};
ghost use Rattle.keep_words.specs.Said.{Asks, IsChosen, IsRestore, change_of};
ghost use Rattle.keep_typed.specs.Names.{is_reading, is_showing};

use clap::ArgMatches;
use keep_words::{Chosen, Command, Restore, count, flag, number, text, texts};
use std::alloc::{AllocError, Global};

/// What the words behind this name ask, where it is the name of a command that only reads.
pub fn reading<'a>(
    alloc: Global,
    name: &str,
    matches: &ArgMatches<'a>,
) -> Result<Option<Command<'a>>, AllocError>
    ensures { IfOk result (Asks is_reading name.now (rows_in matches.now)) }
{
    let command = match name {
        "snapshots" => Command::Snapshots {
            chosen: chosen(matches),
            latest: count(matches, "latest"),
        },
        "ls" => Command::Ls {
            snapshot: place(matches, "SNAP"),
            path: text(matches, "PATH"),
        },
        "dump" => Command::Dump {
            snapshot: place(matches, "SNAP"),
            path: place(matches, "PATH"),
        },
        "diff" => Command::Diff {
            old: place(matches, "OLD"),
            new: place(matches, "NEW"),
        },
        "find" => Command::Find {
            pattern: place(matches, "PATTERN"),
        },
        "restore" => Command::Restore(restore(alloc, matches)?),
        _ => match showing(name, matches) {
            Some(command) => command,
            None => return Ok(None),
        },
    };
    Ok(Some(command))
}

/// What the words ask behind the name of a command that tells of the repository and not of its snapshots.
fn showing<'a>(name: &str, matches: &ArgMatches<'a>) -> Option<Command<'a>>
    ensures { Asks is_showing name.now (rows_in matches.now) result }
{
    match name {
        "check" => Some(Command::Check {
            read_data: flag(matches, "read-data"),
        }),
        "history" => Some(Command::History {
            last: count(matches, "last"),
        }),
        "show" => Some(Command::Show {
            change: change(matches),
        }),
        "graph" => Some(Command::Graph {
            change: number(matches, "N"),
            dot: flag(matches, "dot"),
        }),
        _ => None,
    }
}

/// The text of an argument that has to be there.
pub(crate) fn place<'a>(matches: &ArgMatches<'a>, name: &str) -> &'a str
    ensures { result.now ≡ place_of name.now (rows_in matches.now) }
{
    text(matches, name).unwrap_or("")
}

/// The number of the change that is named.
pub(crate) fn change(matches: &ArgMatches<'_>) -> u64
    ensures { result ≡ change_of (rows_in matches.now) }
{
    number(matches, "N").unwrap_or(0)
}

pub(crate) fn chosen<'a>(matches: &ArgMatches<'a>) -> Chosen<'a>
    ensures { IsChosen (rows_in matches.now) result }
{
    Chosen {
        host: text(matches, "host"),
        tag: text(matches, "tag"),
        path: text(matches, "path"),
    }
}

fn restore<'a>(alloc: Global, matches: &ArgMatches<'a>) -> Result<Restore<'a>, AllocError>
    ensures { IfOk result (IsRestore (rows_in matches.now)) }
{
    let include = texts(alloc, matches, "include")?;
    Ok(Restore {
        snapshot: place(matches, "SNAP"),
        target: place(matches, "target"),
        include,
    })
}
