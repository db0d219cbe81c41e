use crate::entries::printed_entry::print_entry;
use crate::no_answer::No;
use keep_change::{Change, StoredFile};
use keep_entries::{read_entry_with, write_entry};
use keep_hashing::{Hashing, OneByOne};
use keep_journal::{Entry, EventKind};
use keep_names::Id;
use keep_repo::Repo;
use keep_rope::Rope;
use std::alloc::{AllocError, Global};

/// Hashes one piece after another, and counts how often it is asked to.
#[derive(Drop)]
struct CountedHashing {
    batches: u32,
}

impl Hashing for CountedHashing {
    fn begin(&mut self, _bytes: u64) {}

    fn ids(&mut self, alloc: Global, pieces: &[&[u8]]) -> Result<Vec<Id>, AllocError> {
        self.batches = self.batches.saturating_add(1);
        OneByOne.ids(alloc, pieces)
    }
}

/// Whether the entry is read alike where its files are held, and their hex isn't held with its text. One that is written
/// so has the pieces that it is written in, and where it has files, has them hashed in one batch.
pub(crate) fn is_read_alike(
    alloc: Global,
    entry: &Entry,
    bytes: &[u8],
    is_written_so: bool,
) -> Result<bool, No> {
    let mut held = Repo::new(alloc);
    let mut batches = 0;
    if let EventKind::Commit(change) = &entry.event.kind {
        let change = change.as_change();
        hold(&mut held, change.adds.as_slice())?;
        hold(&mut held, change.drops.as_slice())?;
        if has_files(change) {
            batches = 1;
        }
    }
    let mut hashing = CountedHashing { batches: 0 };
    let text = Rope::cut(alloc, bytes, &held)?;
    let again = read_entry_with(alloc, &held, &mut hashing, entry.at, &text)?;
    let told = print_entry(alloc, entry)?;
    let told_again = print_entry(alloc, &again)?;
    let is_hashed_so = !is_written_so || hashing.batches == batches;
    let is_cut_so = !is_written_so || write_entry(alloc, entry)?.has_pieces_of(&text);
    let is_kept = text.bytes(alloc)?.as_slice() == bytes;
    Ok(is_hashed_so && is_cut_so && is_kept && told.as_str() == told_again.as_str())
}

/// Whether the change adds or drops files.
fn has_files(change: &Change) -> bool {
    !change.adds.as_slice().is_empty() || !change.drops.as_slice().is_empty()
}

/// Puts the files under their names.
fn hold(held: &mut Repo, files: &[StoredFile]) -> Result<(), AllocError> {
    for file in files {
        held.insert_file(file.name(), file.bytes().clone()?)?;
    }
    Ok(())
}
