ghost use Rattle.std.specs.Prelude.{◌≡◌, ◌≢◌, IfOk, IfErr, IfSome};
ghost use Rattle.keep_entries.specs.Entry.{IsEntry, Spells, SaysNothing};
ghost use Rattle.keep_entries.specs.declared.entry_error.EntryError.TheVariants.{BadEntry, Memory};

use crate::checks::is_proper;
use crate::entry::read_entry;
use crate::entry_error::EntryError;
use crate::event_in::change_in;
use crate::event_text::is_text_of_event;
use crate::form::Form;
use crate::held_files::fill;
use crate::misread::Misread;
use keep_change::{Change, SharedChange};
use keep_docs::{read_doc, u64_at};
use keep_hashing::Hashing;
use keep_journal::{Entry, Event, EventKind};
use keep_repo::Repo;
use keep_rope::{Piece, Rope};
use std::alloc::{AllocError, Global};

/// Reads the entry of number k as `read_entry` does. Where it is a commit whose files' hex isn't held, their bytes aren't
/// read out of its text, but shared with the files that are held under their names, and those that are added are hashed
/// together.
pub fn read_entry_with<H: Hashing>(
    alloc: Global,
    held: &Repo,
    hashing: &mut H,
    k: u64,
    rope: &Rope,
) -> Result<Entry, EntryError>
    ensures number { IfOk result (λ entry. entry.at ≡ k) }
    ensures entry { IfOk result IsEntry }
    ensures spelled { IfOk result (λ entry. Spells rope.now entry.event) }
    ensures bad { IfErr result (λ why. why ≢ Memory → why ≡ BadEntry k) }
    ensures nothing { IfErr result (λ why. why ≢ Memory → SaysNothing k rope.now) }
{
    let found = held_entry(alloc, held, hashing, k, rope)?;
    match found {
        Some(entry) => Ok(entry),
        None => read_entry(alloc, k, rope.bytes(alloc)?.as_slice()),
    }
}

/// The entry of number k, where it is a commit whose files are held. It is guessed by its text without their hex, and is
/// right where its text has the pieces of this one.
fn held_entry<H: Hashing>(
    alloc: Global,
    held: &Repo,
    hashing: &mut H,
    k: u64,
    rope: &Rope,
) -> Result<Option<Entry>, AllocError>
    ensures number { IfOk result (λ found. IfSome found (λ entry. entry.at ≡ k)) }
    ensures entry { IfOk result (λ found. IfSome found IsEntry) }
    ensures spelled { IfOk result (λ found. IfSome found (λ entry. Spells rope.now entry.event)) }
{
    let Some(event) = guess(alloc, held, hashing, rope)? else {
        return Ok(None);
    };
    if k == 0 || event.number == 0 {
        return Ok(None);
    }
    if !is_proper(&event.kind) {
        return Ok(None);
    }
    if !is_text_of_event(alloc, &event, rope)? {
        return Ok(None);
    }
    Ok(Some(Entry { at: k, event }))
}

/// The commit that a text may be of, with the bytes that are held under the names of its files.
fn guess<H: Hashing>(
    alloc: Global,
    held: &Repo,
    hashing: &mut H,
    rope: &Rope,
) -> Result<Option<Event>, AllocError> {
    if !has_hex(rope) {
        return Ok(None);
    }
    match numbered_change(alloc, rope.plain(alloc)?.as_slice()) {
        Ok((number, change)) => commit_of(alloc, held, hashing, number, change),
        Err(Misread::OtherShape) => Ok(None),
        Err(Misread::Memory) => Err(AllocError),
    }
}

/// Whether the text has hex that isn't held.
fn has_hex(rope: &Rope) -> bool {
    match rope.pieces() {
        Some(pieces) => pieces.iter().any(|piece| matches!(piece, Piece::Hex(_))),
        None => false,
    }
}

/// The number that a text says, and the change, whatever else it says.
fn numbered_change(alloc: Global, text: &[u8]) -> Result<(u64, Change), Misread> {
    let value = read_doc(alloc, text)?;
    let number = u64_at(&value, "number").ok_or(Misread::OtherShape)?;
    let change = change_in(alloc, Form::Moments, &value)?;
    Ok((number, change))
}

/// The commit of this change, with the bytes that are held under the names of its files.
fn commit_of<H: Hashing>(
    alloc: Global,
    held: &Repo,
    hashing: &mut H,
    number: u64,
    change: Change,
) -> Result<Option<Event>, AllocError> {
    let mut change = change;
    let is_filled = fill(alloc, held, hashing, &mut change)?;
    if !is_filled {
        return Ok(None);
    }
    let kind = EventKind::Commit(SharedChange::new(alloc, change)?);
    Ok(Some(Event { number, kind }))
}
