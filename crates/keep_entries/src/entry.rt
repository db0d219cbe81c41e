ghost use Rattle.std.specs.Prelude.{◌≡◌, ◌≢◌, IfOk, IfErr};
ghost use Rattle.keep_entries.specs.Entry.{Fits, IsEntry, Spells, SaysNothing};
ghost use Rattle.keep_entries.specs.Spelling.{entry_text};
ghost use Rattle.keep_entries.specs.declared.entry_error.EntryError.TheVariants.{BadEntry, Memory};
ghost use Rattle.keep_entries.specs.declared.misread.Misread.TheVariants as misread;

use crate::checks::is_proper;
use crate::entry_error::EntryError;
use crate::event_in::read_in;
use crate::event_text::event_text;
use crate::misread::Misread;
use keep_journal::{Entry, Event};
use keep_rope::Rope;
use std::alloc::{AllocError, Global};

/// The text of an entry's event. The entry's own number doesn't stand in it. The hex of files isn't held, but made where
/// the text's bytes are.
pub fn write_entry(alloc: Global, entry: &Entry) -> Result<Rope, AllocError>
    ensures text { IfOk result (λ text. text ≡ entry_text entry.now.event) }
    ensures fits { IfOk result (λ _. Fits entry.now.event) }
{
    event_text(alloc, &entry.event)
}

/// Reads the entry of number k, in either form and in no other spelling. Beside the text, what was added or dropped is
/// held at most twice: by the reading of the document, and then as a document and as bytes.
pub fn read_entry(alloc: Global, k: u64, bytes: &[u8]) -> Result<Entry, EntryError>
    ensures number { IfOk result (λ entry. entry.at ≡ k) }
    ensures entry { IfOk result IsEntry }
    ensures spelled { IfOk result (λ entry. Spells bytes.now entry.event) }
    ensures bad { IfErr result (λ why. why ≢ Memory → why ≡ BadEntry k) }
    ensures nothing { IfErr result (λ why. why ≢ Memory → SaysNothing k bytes.now) }
{
    match event_of(alloc, k, bytes) {
        Ok(event) => Ok(Entry { at: k, event }),
        Err(Misread::OtherShape) => Err(EntryError::BadEntry(k)),
        Err(Misread::Memory) => Err(EntryError::Memory),
    }
}

/// The event whose text the bytes are.
fn event_of(alloc: Global, k: u64, bytes: &[u8]) -> Result<Event, Misread>
    ensures entry { IfOk result (λ event. IsEntry (record { at = k; event = event })) }
    ensures spelled { IfOk result (λ event. Spells bytes.now event) }
    ensures nothing { IfErr result (λ why. why ≢ misread.Memory → SaysNothing k bytes.now) }
{
    if k == 0 {
        return Err(Misread::OtherShape);
    }
    let event = read_in(alloc, bytes)?;
    if event.number == 0 {
        return Err(Misread::OtherShape);
    }
    if !is_proper(&event.kind) {
        return Err(Misread::OtherShape);
    }
    Ok(event)
}
