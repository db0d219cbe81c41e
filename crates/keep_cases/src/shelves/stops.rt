use crate::shelves::recording::RecordingShelf;
use crate::shelves::running::{NO_FAILURE, shelf_over};
use crate::shelves::shelf_stop::Stop;
use crate::shelves::shown_calls::behind_word;
use keep_book::Book;
use keep_shelf::MemoryShelf;
use std::alloc::Global;
use std::fmt::Write;

/// Opens what stood on the shelf after so many of its calls, and what each later call left, as a book of its own, and
/// writes what the book has.
pub(crate) fn show_stops(
    alloc: Global,
    recording: &RecordingShelf<MemoryShelf>,
    first: usize,
    out: &mut String,
) -> Result<(), Stop> {
    let last = recording.calls();
    for call in first..last {
        write!(out, "stop {}: ", call - first)?;
        show_stop(alloc, recording.content_at(call)?, out)?;
    }
    write!(out, "stop {}: ", last.saturating_sub(first))?;
    show_stop(alloc, recording.content_at(last)?, out)
}

/// Opens this as a book, and writes what the book has, or why it isn't opened.
pub(crate) fn show_stop(alloc: Global, content: MemoryShelf, out: &mut String) -> Result<(), Stop> {
    match show_opened(alloc, content, out) {
        Err(Stop::NotOpened(error)) => {
            writeln!(out, "{}", Stop::NotOpened(error))?;
            Ok(())
        }
        other => other,
    }
}

/// Writes what a book over this has, and how many calls its opening made.
fn show_opened(alloc: Global, content: MemoryShelf, out: &mut String) -> Result<(), Stop> {
    let shelf = shelf_over(alloc, content, NO_FAILURE)?;
    let book = Book::open(alloc, shelf)?;
    let ledger = book.ledger();
    let (length, repo) = (ledger.history().length(), ledger.live());
    let (files, marks) = (repo.file_count(), repo.mark_count());
    let calls = ledger.shelf().calls()?.len();
    let behind = behind_word(alloc, &book)?;
    writeln!(
        out,
        "length {length} files {files} marks {marks}; {calls} calls{behind}"
    )?;
    Ok(())
}
