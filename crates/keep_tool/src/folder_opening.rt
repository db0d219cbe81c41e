use crate::answer::answer;
use keep_book::Book;
use keep_catalog::Hashing;
use keep_command::NamedShelf;
use keep_disk::FolderError;
use keep_folder::FolderShelf;
use keep_openings::{CountedTree, Unopened, copied, open_counted, refusal_of};
use keep_progress::CountedFiles;
use keep_run::{Failure, Run};
use keep_shelf::Shelf;
use keep_words::Command;
use std::sync::Wait;
use std::thread::{self, Threads};
use std::time::Duration;

/// How often a second the lock of a folder is asked for.
const TRIES: u64 = 10;

/// Does what the command says over the repository's folder. One that only looks works on what stands there, taken into
/// memory, and lets the folder go first. How far the opening is is said until there is a book.
pub(crate) fn over_folder<H: Hashing + Wait + Threads + Copy + Send + 'static>(
    run: &Run<'_>,
    hashing: H,
    command: &Command<'_>,
) -> Result<(), Failure> {
    let files = CountedFiles::new(run.rt)?;
    let mut shelf = open(run, &files)?;
    if !only_looks(command) {
        return over_shelf(run, hashing, &files, shelf, command);
    }
    let copy = copied(run.alloc, &mut shelf);
    drop(shelf);
    match copy {
        Ok(copy) => over_shelf(run, hashing, &files, NamedShelf::Memory(copy), command),
        Err(error) => Err(unopened(run, &Unopened::Unread(error))),
    }
}

/// Whether the command changes nothing in the folder.
fn only_looks(command: &Command<'_>) -> bool {
    match command {
        Command::Check { .. } | Command::History { .. } => true,
        Command::Show { .. } | Command::Graph { .. } => true,
        Command::Snapshots { .. } | Command::Ls { .. } | Command::Dump { .. } => true,
        Command::Diff { .. } | Command::Find { .. } | Command::Restore(_) => true,
        Command::Backup(words) => words.dry_run,
        Command::Forget(words) => words.dry_run,
        Command::Rewrite(words) => words.dry_run,
        _ => false,
    }
}

/// Does what the command says over the book of what stands on the shelf. No file is counted once it is there.
fn over_shelf<S: Shelf, H: Hashing + Wait + Threads + Copy + Send + 'static>(
    run: &Run<'_>,
    mut hashing: H,
    files: &CountedFiles<'_>,
    shelf: S,
    command: &Command<'_>,
) -> Result<(), Failure> {
    let opened = Book::open_with(run.alloc, shelf, &mut hashing);
    files.end();
    match opened {
        Ok(mut book) => answer(run, hashing, &mut book, command),
        Err(given) => Err(unopened(run, &refusal_of(run.alloc, given))),
    }
}

/// The shelf of the repository's folder. While another run has it, this one waits.
fn open<'a>(
    run: &Run<'_>,
    files: &CountedFiles<'a>,
) -> Result<FolderShelf<CountedTree<'a>>, Failure> {
    for _ in 0..run.wait.saturating_mul(TRIES) {
        match open_counted(run.rt, files, run.folder) {
            Err(FolderError::Locked) => thread::sleep(run.rt, Duration::from_millis(1000 / TRIES)),
            Err(error) => return Err(unopened(run, &Unopened::Folder(error))),
            Ok(shelf) => return Ok(shelf),
        }
    }
    match open_counted(run.rt, files, run.folder) {
        Ok(shelf) => Ok(shelf),
        Err(error) => Err(unopened(run, &Unopened::Folder(error))),
    }
}

/// Says that the folder isn't opened, for this cause.
fn unopened(run: &Run<'_>, cause: &Unopened) -> Failure {
    match format!(in run.alloc; "cannot open {}: {cause}", run.folder) {
        Ok(text) => Failure::Refused(text),
        Err(_) => Failure::Memory,
    }
}
