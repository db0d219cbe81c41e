ghost use Rattle.keep_book.specs.Armed.{HasSums};

use anyhow::{Result, anyhow};
use keep_book::Book;
use keep_change::{Change, Listed, Planned, StoredFile};
use keep_ledger::{Refusal, Told};
use keep_names::Kind;
use keep_rope::Rope;
use keep_shelf::{Key, MemoryShelf, Shelf};
use std::alloc::{AllocError, Global};

/// How many files stand on the shelf at the beginning.
const FILES: u32 = 16_384;
/// How many changes are made, of one added file each.
const COMMITS: u32 = 1_024;

/// The length of the history once all changes were made.
pub(crate) fn commits(alloc: Global) -> Result<u64> {
    let Ok(mut book) = Book::open(alloc, filled(alloc)?) else {
        return Err(anyhow!("the shelf isn't opened"));
    };
    commit_all(alloc, &mut book)?;
    Ok(book.ledger().history().length())
}

/// The undo of the first change, once all were made.
pub(crate) fn undo_first(alloc: Global) -> Result<Told> {
    let Ok(mut book) = Book::open(alloc, filled(alloc)?) else {
        return Err(anyhow!("the shelf isn't opened"));
    };
    commit_all(alloc, &mut book)?;
    Ok(book.undo(1)?)
}

fn commit_all(alloc: Global, book: &mut Book<MemoryShelf>) -> Result<(), Refusal>
    requires { HasSums book.old }
    ensures { HasSums book.new }
{
    for number in 0..COMMITS {
        book.commit(adding(alloc, FILES + number)?)?;
    }
    Ok(())
}

/// A shelf with the files.
fn filled(alloc: Global) -> Result<MemoryShelf, Refusal> {
    let mut shelf = MemoryShelf::new(alloc);
    for number in 0..FILES {
        let file = file(alloc, number)?;
        let bytes = Rope::of(file.bytes().clone()?);
        shelf.write(Key::Live(file.name()), &bytes)?;
    }
    Ok(shelf)
}

/// The index with the bytes of this number.
fn file(alloc: Global, number: u32) -> Result<StoredFile, AllocError> {
    StoredFile::of(
        alloc,
        Kind::Index,
        Vec::from_slice(alloc, &number.to_be_bytes())?,
    )
}

/// The change that adds the index of this number.
fn adding(alloc: Global, number: u32) -> Result<Planned, AllocError> {
    let mut files = Vec::new(alloc);
    files.push(file(alloc, number)?)?;
    let mut change = Change::new(alloc);
    change.adds = Listed::from_vec(files);
    Ok(Planned { change, seen: 0 })
}
