use crate::no_answer::No;
use keep_change::{Change, Listed, SharedChange, StoredFile};
use keep_entries::{read_entry, write_entry};
use keep_journal::{Entry, Event, EventKind};
use keep_names::{Id, Kind};
use std::alloc::Global;

/// How many facets are read of an entry that was written with so many, one of them an added file.
pub(crate) fn facets(alloc: Global, number: u64, count: u32) -> Result<String, No> {
    let written = entry_of(alloc, number, count)?;
    let text = write_entry(alloc, &written)?.bytes(alloc)?;
    let entry = read_entry(alloc, number, text.as_slice())?;
    match &entry.event.kind {
        EventKind::Commit(change) => {
            let count = change.as_change().facet_count();
            Ok(format!(in alloc; "{count} facets")?)
        }
        _ => Err(No::Case),
    }
}

fn entry_of(alloc: Global, number: u64, count: u32) -> Result<Entry, No> {
    let mut change = Change::new(alloc);
    change.adds = Listed::from_vec(one_file(alloc)?);
    change.unmarked = Listed::from_vec(packs(alloc, count)?);
    let shared = SharedChange::new(alloc, change)?;
    Ok(Entry {
        at: number,
        event: Event {
            number: 1,
            kind: EventKind::Commit(shared),
        },
    })
}

fn one_file(alloc: Global) -> Result<Vec<StoredFile>, No> {
    let mut files = Vec::new(alloc);
    files.push(StoredFile::of(alloc, Kind::Index, Vec::new(alloc))?)?;
    Ok(files)
}

/// One pack fewer than there are to be facets.
fn packs(alloc: Global, count: u32) -> Result<Vec<Id>, No> {
    let mut packs = Vec::new(alloc);
    for number in 1..count {
        packs.push(pack_numbered(number))?;
    }
    Ok(packs)
}

fn pack_numbered(number: u32) -> Id {
    let [a, b, c, d] = number.to_be_bytes();
    let mut digest = [0u8; 32];
    digest[28] = a;
    digest[29] = b;
    digest[30] = c;
    digest[31] = d;
    Id(digest)
}
