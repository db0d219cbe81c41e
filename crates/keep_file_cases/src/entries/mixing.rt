use crate::no_answer::No;
use keep_entries::{EntryError, read_entry};
use std::alloc::Global;
use std::str;

/// How many of the beginnings and ends of a text are entries, the text itself not counted.
pub(crate) fn cuts(alloc: Global, number: u64, text: &[u8]) -> Result<String, No> {
    let mut read = 0u32;
    for place in 0..text.len() {
        for part in [&text[..place], &text[place + 1..]] {
            if is_entry(alloc, number, part)? {
                read = read.saturating_add(1);
            }
        }
    }
    Ok(format!(in alloc; "{read} read")?)
}

/// How many entries there are among the texts that begin as the first of two and go on as the second, from the same
/// place in both. Two colons stand between the two.
pub(crate) fn mixed(alloc: Global, number: u64, texts: &[u8]) -> Result<String, No> {
    let Some((first, second)) = parted(texts) else {
        return Err(No::Case);
    };
    let (first, second) = (first.as_bytes(), second.as_bytes());
    let mut read = 0u32;
    for place in 1..first.len().min(second.len()) {
        let mut text = Vec::from_slice(alloc, &first[..place])?;
        text.extend_from_slice(&second[place..])?;
        if is_entry(alloc, number, &text)? {
            read = read.saturating_add(1);
        }
    }
    Ok(format!(in alloc; "{read} read")?)
}

fn parted(texts: &[u8]) -> Option<(&str, &str)> {
    str::from_utf8(texts).ok()?.split_once(" :: ")
}

/// Whether this is the text of an entry.
fn is_entry(alloc: Global, number: u64, text: &[u8]) -> Result<bool, No> {
    match read_entry(alloc, number, text) {
        Ok(_) => Ok(true),
        Err(EntryError::BadEntry(_)) => Ok(false),
        Err(error) => Err(No::Entry(error)),
    }
}
