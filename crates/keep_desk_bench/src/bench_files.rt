use keep_change::{Change, Listed, Planned, StoredFile};
use keep_ledger::Refusal;
use keep_names::Kind;
use keep_rope::Rope;
use keep_shelf::{Key, MemoryShelf, Shelf};
use std::alloc::{AllocError, Global};

/// How many files stand on the shelf at the beginning.
const FILES: u32 = 1_000;

/// A shelf with the files.
pub(crate) fn filled(alloc: Global) -> Result<MemoryShelf, Refusal> {
    let mut shelf = MemoryShelf::new(alloc);
    for number in 0..FILES {
        let file = index(alloc, format!(in alloc; "{number}")?)?;
        let bytes = Rope::of(file.bytes().clone()?);
        shelf.write(Key::Live(file.name()), &bytes)?;
    }
    Ok(shelf)
}

/// The change that adds an index of its own for each place and number.
pub(crate) fn adding(alloc: Global, place: usize, number: u32) -> Result<Planned, AllocError> {
    let mut files = Vec::new(alloc);
    files.push(index(alloc, format!(in alloc; "{place} {number}")?)?)?;
    let mut change = Change::new(alloc);
    change.adds = Listed::from_vec(files);
    Ok(Planned { change, seen: 0 })
}

/// The index with this text.
fn index(alloc: Global, text: String) -> Result<StoredFile, AllocError> {
    StoredFile::of(alloc, Kind::Index, text.into_bytes())
}
