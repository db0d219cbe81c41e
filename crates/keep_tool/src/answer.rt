ghost use Rattle.keep_book.specs.Armed.{HasSums};

use crate::hashing::CountedHashing;
use crate::looking::look;
use crate::yes_or_no::agrees;
use keep_book::Book;
use keep_catalog::Hashing;
use keep_deeds::{Came, NoDeed, deed_of, perform};
use keep_journal::History;
use keep_names::Id;
use keep_outcomes::{Way, print_effects, print_outcome, print_pruned, print_taken};
use keep_run::{Failure, Run, meant, numbers_text, refused, require_sure};
use keep_shelf::Shelf;
use keep_words::{Chosen, Command};
use std::sync::Wait;
use std::thread::Threads;

/// Does what the command asks of the book, and prints what came of it; or prints what is asked for.
pub(crate) fn answer<S: Shelf, H: Hashing + Wait + Threads + Copy + Send + 'static>(
    run: &Run<'_>,
    hashing: H,
    book: &mut Book<S>,
    command: &Command<'_>,
) -> Result<(), Failure>
    requires { HasSums book.old }
{
    let named = named(run, book, command)?;
    match deed_of(run.alloc, command, named) {
        Ok(None) => {
            hash_first(run, hashing, book, command);
            look(run, hashing, book, command)
        }
        Ok(Some(deed)) => {
            confirm(run, book, command)?;
            hash_first(run, hashing, book, command);
            let came = perform(run.alloc, book, run.settings(), deed);
            require_sure(run, book)?;
            print_came(run, book.ledger().history(), command, came)
        }
        Err(NoDeed::Unnamed) => Err(Failure::unmeant(run.alloc, "name a snapshot")),
        Err(NoDeed::Memory) => Err(Failure::Memory),
    }
}

/// The snapshot whose tags the command is to change, where it names one.
fn named<S: Shelf>(
    run: &Run<'_>,
    book: &Book<S>,
    command: &Command<'_>,
) -> Result<Option<Id>, Failure> {
    let Command::Tag(words) = command else {
        return Ok(None);
    };
    match words.snapshot {
        Some(text) => Ok(Some(meant(run, book, text)?)),
        None => Ok(None),
    }
}

/// Has all blobs hashed at once where the command asks of nearly each whether its bytes are its own, which is remembered.
fn hash_first<S: Shelf, H: Hashing + Copy>(
    run: &Run<'_>,
    hashing: H,
    book: &mut Book<S>,
    command: &Command<'_>,
)
    requires { HasSums book.old }
    ensures { HasSums book.new }
{
    let verb = match command {
        Command::Mark | Command::Prune { .. } => "mark",
        Command::Snapshots {
            chosen: Chosen {
                host: None,
                tag: None,
                path: None,
            },
            latest: None,
        } => "list",
        _ => return,
    };
    book.hash_all(&mut CountedHashing::new(run.rt, hashing, verb, "blobs"));
}

/// The change that the command names, 0 where it names none.
fn about(command: &Command<'_>) -> u64 {
    match command {
        Command::Undo { change, .. } => *change,
        Command::Redo { change } => *change,
        Command::Empty { through, .. } => *through,
        _ => 0,
    }
}

fn way_of(command: &Command<'_>) -> Way {
    match command {
        Command::Undo { .. } => Way::Back,
        _ => Way::Forth,
    }
}

/// Says what a command does that can't easily be taken back, and asks whether it is to go on.
fn confirm<S: Shelf>(run: &Run<'_>, book: &Book<S>, command: &Command<'_>) -> Result<(), Failure> {
    let (text, yes) = match command {
        Command::Undo {
            change,
            with_all: true,
            yes,
        } => match book.taken_with(*change) {
            Ok(numbers) => {
                let list = numbers_text(run, &numbers)?;
                (
                    format!(in run.alloc; "these changes are undone: {list}")?,
                    *yes,
                )
            }
            Err(refusal) => return Err(refused(run, *change, &refusal)),
        },
        Command::Empty { through, yes } => (
            format!(in run.alloc;
                "the changes up to {through} become final: none can be undone then"
            )?,
            *yes,
        ),
        _ => return Ok(()),
    };
    if agrees(run, text.as_str(), yes) {
        Ok(())
    } else {
        Err(Failure::Told)
    }
}

/// Prints what came of what the command asked.
fn print_came(
    run: &Run<'_>,
    history: &History,
    command: &Command<'_>,
    came: Came,
) -> Result<(), Failure> {
    let about = about(command);
    match came {
        Came::Asked(Ok(made)) => print_effects(run, history, made, way_of(command)),
        Came::Asked(Err(refusal)) => Err(refused(run, about, &refusal)),
        Came::TakenBack(taken) => print_taken(run, about, &taken),
        Came::Changed(outcome) => print_outcome(run, history, outcome),
        Came::Pruned(pruned) => print_pruned(run, history, pruned),
    }
}
