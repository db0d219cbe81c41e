ghost use Rattle.keep_book.specs.Armed.{HasSums};

use crate::files_ahead::back_up;
use crate::hashing::CountedHashing;
use keep_book::Book;
use keep_catalog::Hashing;
use keep_outcomes::show;
use keep_restoring::{dump_file, restore_snapshot};
use keep_run::{Failure, Run};
use keep_shelf::Shelf;
use keep_showing::{check, compare, find, graph, history, list_nodes, list_snapshots};
use keep_words::Command;
use std::sync::Wait;
use std::thread::Threads;

/// Prints what the command asks for.
pub(crate) fn look<S: Shelf, H: Hashing + Wait + Threads + Copy + Send + 'static>(
    run: &Run<'_>,
    hashing: H,
    book: &mut Book<S>,
    command: &Command<'_>,
) -> Result<(), Failure>
    requires { HasSums book.old }
{
    match command {
        Command::Check { .. } => {
            let counted = CountedHashing::new(run.rt, hashing, "check", "blobs and files");
            check(run, book, counted)
        }
        Command::History { last } => history(run, book, *last),
        Command::Show { change } => show(run, book, *change),
        Command::Graph { change, dot } => graph(run, book, *change, *dot),
        Command::Backup(words) => back_up(run, hashing, book, words),
        Command::Restore(words) => restore_snapshot(run, book, words),
        Command::Dump { snapshot, path } => dump_file(run, book, snapshot, path),
        Command::Snapshots { chosen, latest } => list_snapshots(run, book, chosen, *latest),
        Command::Ls { snapshot, path } => list_nodes(run, book, snapshot, *path),
        Command::Diff { old, new } => compare(run, book, old, new),
        Command::Find { pattern } => find(run, book, pattern),
        _ => Err(Failure::unmeant(run.alloc, "this command isn't there yet")),
    }
}
