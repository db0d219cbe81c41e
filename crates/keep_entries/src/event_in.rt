ghost use Rattle.std.specs.Prelude.{◌≡◌, codes, ok_or, option_map};
ghost use Rattle.serde_json.specs.Find as find;
ghost use Rattle.serde_json.specs.View.{view};
ghost use Rattle.keep_docs.specs.Doc.{Answers};
ghost use Rattle.keep_docs.specs.Fields.{field};
ghost use Rattle.keep_journal.specs.declared.event.EventKind.TheVariants as kind;
ghost use Rattle.keep_entries.specs.Shape.{list_of};
ghost use Rattle.keep_entries.specs.Shape as spec;
ghost use Rattle.keep_entries.specs.declared.misread.Misread.TheVariants.{Memory, OtherShape};

use crate::form::{Form, form_of};
use crate::lists_at::{files_at, ids_at, marks_at, names_at};
use crate::misread::Misread;
use crate::read_parts::has_members;
use keep_change::{Change, SharedChange};
use keep_docs::{is_text_of, read_doc, str_at, u64_at};
use keep_journal::{Event, EventKind};
use serde_json::Value;
use std::alloc::Global;

/// The event whose text bytes are, in whichever form.
pub(crate) fn read_in(alloc: Global, bytes: &[u8]) -> Result<Event, Misread>
    ensures { Answers Memory (λ event. event)
        (ok_or (option_map (λ told. told.1) (spec.read_of bytes.now)) OtherShape) result }
{
    let value = compact_doc(alloc, bytes)?;
    said_in(alloc, &value)
}

/// The value whose text without spaces the bytes are.
fn compact_doc(alloc: Global, bytes: &[u8]) -> Result<Value, Misread>
    ensures { Answers Memory view (ok_or (spec.compact_doc bytes.now) OtherShape) result }
{
    let value = read_doc(alloc, bytes)?;
    if !is_text_of(&value, bytes) {
        return Err(Misread::OtherShape);
    }
    Ok(value)
}

/// The event that a document says, in the form that it says.
fn said_in(alloc: Global, value: &Value) -> Result<Event, Misread>
    ensures { Answers Memory (λ event. event)
        (ok_or (option_map (λ told. told.1) (spec.said_in (view value.now))) OtherShape) result }
{
    let form = form_in(value)?;
    event_in(alloc, form, value)
}

/// The form that a document says. It takes no memory.
fn form_in(value: &Value) -> Result<Form, Misread>
    ensures { result ≡ ok_or (spec.form_in (view value.now)) OtherShape }
{
    let number = u64_at(value, "form").ok_or(Misread::OtherShape)?;
    form_of(number).ok_or(Misread::OtherShape)
}

/// The event that an entry of the form says.
fn event_in(alloc: Global, form: Form, value: &Value) -> Result<Event, Misread>
    ensures { Answers Memory (λ event. event) (ok_or (spec.event_in form (view value.now)) OtherShape) result }
{
    let number = u64_at(value, "number").ok_or(Misread::OtherShape)?;
    let kind = kind_in(alloc, form, value)?;
    Ok(Event { number, kind })
}

/// What an event of the form did.
fn kind_in(alloc: Global, form: Form, value: &Value) -> Result<EventKind, Misread>
    ensures { Answers Memory (λ kind. kind) (ok_or (spec.deed_in form (view value.now)) OtherShape) result }
{
    let word = str_at(value, "event").ok_or(Misread::OtherShape)?;
    let count = members_of(word).ok_or(Misread::OtherShape)?;
    if !has_members(value, count) {
        return Err(Misread::OtherShape);
    }
    match word {
        "commit" => commit_in(alloc, form, value),
        "undo" => Ok(EventKind::Undo),
        "redo" => Ok(EventKind::Redo),
        "empty" => empty_in(alloc, form, value),
        _ => Err(Misread::OtherShape),
    }
}

/// How many members an entry has that says the word.
fn members_of(word: &str) -> Option<usize>
    ensures { result ≡ spec.members_of word.now }
{
    match word {
        "commit" => Some(12),
        "undo" | "redo" => Some(3),
        "empty" => Some(4),
        _ => None,
    }
}

fn commit_in(alloc: Global, form: Form, value: &Value) -> Result<EventKind, Misread>
    ensures { Answers Memory (λ kind. kind)
        (ok_or (option_map kind.Commit (spec.change_in form (view value.now))) OtherShape) result }
{
    let change = change_in(alloc, form, value)?;
    let shared = SharedChange::new(alloc, change)?;
    Ok(EventKind::Commit(shared))
}

fn empty_in(alloc: Global, form: Form, value: &Value) -> Result<EventKind, Misread>
    ensures { Answers Memory (λ kind. kind)
        (ok_or (option_map kind.Empty
        (list_of (spec.mark_in form) (codes "marks") (view value.now))) OtherShape) result }
{
    let marks = marks_at(alloc, form, value, "marks")?;
    Ok(EventKind::Empty(marks))
}

/// The change that a commit of the form says.
pub(crate) fn change_in(alloc: Global, form: Form, value: &Value) -> Result<Change, Misread>
    ensures { Answers Memory (λ change. change)
        (ok_or (spec.change_in form (view value.now)) OtherShape) result }
{
    let adds = files_at(alloc, value, "adds")?;
    let drops = files_at(alloc, value, "drops")?;
    let sets = marks_at(alloc, form, value, "sets")?;
    let clears = marks_at(alloc, form, value, "clears")?;
    let present = names_at(alloc, value, "present")?;
    let absent = names_at(alloc, value, "absent")?;
    let marked = ids_at(alloc, value, "marked")?;
    let unmarked = ids_at(alloc, value, "unmarked")?;
    let strict = bool_at(value, "strict").ok_or(Misread::OtherShape)?;
    Ok(Change {
        adds,
        drops,
        sets,
        clears,
        present,
        absent,
        marked,
        unmarked,
        strict,
    })
}

fn bool_at(value: &Value, key: &str) -> Option<bool>
    ensures { result ≡ field key.now find.as_bool (view value.now) }
{
    value.get(key)?.as_bool()
}
