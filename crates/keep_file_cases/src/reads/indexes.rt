use crate::case_words::{cut_part, ids_in, text_of, words_in};
use crate::no_answer::No;
use keep_index::{Index, read_index, without_packs, write_index};
use keep_names::Id;
use std::alloc::Global;
use std::collections::BTreeSet;

pub(crate) fn index(alloc: Global, bytes: &[u8]) -> Result<String, No> {
    let index = read_index(alloc, bytes)?;
    written(alloc, &index)
}

fn written(alloc: Global, index: &Index) -> Result<String, No> {
    let written = write_index(alloc, index)?;
    text_of(alloc, &written)
}

/// Several indexes as one.
pub(crate) fn join(alloc: Global, text: &str) -> Result<String, No> {
    let mut indexes = Vec::new(alloc);
    for part in text.split(" :: ") {
        indexes.push(read_index(alloc, part.as_bytes())?)?;
    }
    let joined = keep_index::join(alloc, &indexes)?;
    written(alloc, &joined)
}

/// An index without some packs.
pub(crate) fn leaving(alloc: Global, text: &str) -> Result<String, No> {
    let (ids, text) = cut_part(text);
    let gone = set_in(alloc, ids)?;
    let index = read_index(alloc, text.as_bytes())?;
    let packs = without_packs(alloc, &index.packs, &gone)?;
    written(alloc, &Index { packs })
}

fn set_in(alloc: Global, text: &str) -> Result<BTreeSet<Id>, No> {
    let words = words_in(alloc, text)?;
    let mut set = BTreeSet::new(alloc);
    for id in &ids_in(alloc, &words)? {
        set.insert(*id)?;
    }
    Ok(set)
}
