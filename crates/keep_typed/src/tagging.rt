ghost use Rattle.std.specs.Prelude.{◌≡◌, IfOk};
ghost use Rattle.keep_words.specs.Faults.{one_of_two, tag_fault};
ghost use Rattle.keep_words.specs.Read.{Reads, rows_in};
ghost use Rattle.keep_words.specs.Said.{AreTags, IsTag};

use clap::error::ErrorKind;
use clap::{ArgMatches, Error};
use keep_words::{Tag, flag, refusal, text, texts};
use std::alloc::{AllocError, Global};

/// The tagging that is asked for, of one snapshot or of all: it sets tags, or adds some and takes some away.
pub(crate) fn tag<'a>(alloc: Global, matches: &ArgMatches<'a>) -> Result<Tag<'a>, Error>
    ensures { Reads (tag_fault (rows_in matches.now)) (IsTag (rows_in matches.now)) result }
{
    let tag = tags(alloc, matches)?;
    if let Some(kind) = fault(tag.snapshot.is_some(), flag(matches, "all")) {
        return Err(refusal(alloc, USAGE, kind, "say a snapshot, or --all"));
    }
    let moves = !tag.add.is_empty() | !tag.remove.is_empty();
    if let Some(kind) = fault(!tag.set.is_empty(), moves) {
        let message = "say --set, or --add and --remove";
        return Err(refusal(alloc, USAGE, kind, message));
    }
    Ok(tag)
}

const USAGE: &str = "keep tag <SNAP|--all> <--set TAG|--add TAG|--remove TAG>..";

/// What is at fault where just one of two things has to be said.
fn fault(one: bool, other: bool) -> Option<ErrorKind>
    ensures { result ≡ one_of_two one other }
{
    match (one, other) {
        (true, true) => Some(ErrorKind::ArgumentConflict),
        (false, false) => Some(ErrorKind::MissingRequiredArgument),
        _ => None,
    }
}

fn tags<'a>(alloc: Global, matches: &ArgMatches<'a>) -> Result<Tag<'a>, AllocError>
    ensures { IfOk result (AreTags (rows_in matches.now)) }
{
    let snapshot = text(matches, "SNAP");
    let add = texts(alloc, matches, "add")?;
    let remove = texts(alloc, matches, "remove")?;
    let set = texts(alloc, matches, "set")?;
    Ok(Tag {
        snapshot,
        add,
        remove,
        set,
    })
}
