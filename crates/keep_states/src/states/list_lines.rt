use crate::case_words;
use crate::states::state::{State, no_change};
use crate::stop::Stop;
use keep_change::{Change, Listed, StoredFile};
use keep_names::{FileName, Id};
use keep_repo::Bytes;
use std::alloc::{AllocError, Global};
use std::mem;

/// Lists a member of the held change, if the line asks for it.
pub(crate) fn answer(state: &mut State, verb: &str, rest: &str) -> Result<bool, Stop> {
    let alloc = state.alloc;
    match verb {
        "change" => state.held = no_change(alloc),
        "seen" => state.held.seen = case_words::number(rest)?,
        _ => return list(alloc, &mut state.held.change, verb, rest),
    }
    Ok(true)
}

/// Lists a member of the change, if the line asks for it.
fn list(alloc: Global, change: &mut Change, verb: &str, rest: &str) -> Result<bool, Stop> {
    match verb {
        "adds" => push(alloc, &mut change.adds, file(alloc, rest)?)?,
        "drops" => push(alloc, &mut change.drops, file(alloc, rest)?)?,
        "sets" => push(alloc, &mut change.sets, case_words::pack_mark(rest)?)?,
        "clears" => push(alloc, &mut change.clears, case_words::pack_mark(rest)?)?,
        _ => return ask_for(alloc, change, verb, rest),
    }
    Ok(true)
}

/// Lists a condition of the change, if the line asks for it.
fn ask_for(alloc: Global, change: &mut Change, verb: &str, rest: &str) -> Result<bool, Stop> {
    match verb {
        "present" => push(alloc, &mut change.present, case_words::name(rest)?)?,
        "absent" => push(alloc, &mut change.absent, case_words::name(rest)?)?,
        "marked" => push(alloc, &mut change.marked, case_words::id(rest)?)?,
        "unmarked" => push(alloc, &mut change.unmarked, case_words::id(rest)?)?,
        "absents" => change.absent = absents(alloc, case_words::short_number(rest)?)?,
        "strict" => change.strict = true,
        _ => return Ok(false),
    }
    Ok(true)
}

/// Adds the item to the list.
fn push<T: Drop>(alloc: Global, list: &mut Listed<T>, item: T) -> Result<(), AllocError> {
    let mut items = mem::replace(list, Listed::from_vec(Vec::new(alloc))).into_vec();
    items.push(item)?;
    *list = Listed::from_vec(items);
    Ok(())
}

fn file(alloc: Global, rest: &str) -> Result<StoredFile, Stop> {
    let (name, bytes) = case_words::file(alloc, rest)?;
    let bytes = Bytes::new(alloc, bytes)?;
    Ok(StoredFile::under(name, bytes))
}

/// So many snapshots, each by its number in the first four bytes of its id.
fn absents(alloc: Global, count: u32) -> Result<Listed<FileName>, AllocError> {
    let mut names = Vec::new(alloc);
    for number in 0..count {
        let mut id = [0; 32];
        id[..4].copy_from_slice(&number.to_be_bytes());
        names.push(FileName::snapshot(Id(id)))?;
    }
    Ok(Listed::from_vec(names))
}
