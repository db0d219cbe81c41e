ghost use Rattle.std.specs.Prelude.{◌≡◌, ◌<◌, ◌++◌, ◌^◌, IfOk, IsTrue, OnOk, codes, decimal};
ghost use Rattle.std.specs.List.{AllByRecursion};
ghost use Rattle.serde_json.specs.Written.{compact_text};
ghost use Rattle.keep_entries.specs.Entry.{FilesFit, Fits, FitsMark, MarksFit};
ghost use Rattle.keep_entries.specs.Spelling.{commit_data, empty_data, entry_text, event_data};
ghost use Rattle.keep_entries.specs.declared.form.Form.TheVariants.{Moments};

use crate::entry_values::{put_marks, put_number};
use crate::object_text::{put_first, put_last, put_middle};
use keep_change::{Change, PackMark};
use keep_journal::{Event, EventKind};
use keep_rope::{Rope, RopeWriter};
use std::alloc::{AllocError, Global};

/// The text of an event. The hex of files' bytes isn't held.
pub(crate) fn event_text(alloc: Global, event: &Event) -> Result<Rope, AllocError>
    ensures text { IfOk result (λ text. text ≡ entry_text event.now) }
    ensures fits { IfOk result (λ _. Fits event.now) }
{
    let mut out = RopeWriter::new(alloc);
    put_event(&mut out, event)?;
    out.finish()
}

/// Whether the text has just the pieces of an event's.
pub(crate) fn is_text_of_event(
    alloc: Global,
    event: &Event,
    text: &Rope,
) -> Result<bool, AllocError>
    ensures text { IfOk result (λ is. IsTrue is → text.now ≡ entry_text event.now) }
    ensures fits { IfOk result (λ is. IsTrue is → Fits event.now) }
{
    let written = event_text(alloc, event)?;
    Ok(written.has_pieces_of(text))
}

/// Writes an event.
fn put_event(out: &mut RopeWriter, event: &Event) -> Result<(), AllocError>
    ensures text { OnOk result (out.new ≡ out.old ++ compact_text (event_data Moments event.now)) }
    ensures fits { OnOk result (Fits event.now) }
{
    let number = event.number;
    match &event.kind {
        EventKind::Commit(change) => put_commit(out, number, change.as_change()),
        EventKind::Undo => put_turn(out, b"{\"event\":\"undo\",\"form\":2,\"number\":", number),
        EventKind::Redo => put_turn(out, b"{\"event\":\"redo\",\"form\":2,\"number\":", number),
        EventKind::Empty(marks) => put_empty(out, number, marks.as_slice()),
    }
}

/// Writes a commit.
fn put_commit(out: &mut RopeWriter, number: u64, change: &Change) -> Result<(), AllocError>
    ensures text { OnOk result (out.new ≡ out.old ++ compact_text (commit_data Moments number change.now)) }
    ensures number { OnOk result (number < 2 ^ 64) }
    ensures files { OnOk result (FilesFit change.now) }
    ensures marks { OnOk result (MarksFit change.now) }
{
    put_first(out, change)?;
    put_middle(out, number, change)?;
    put_last(out, change)
}

/// Writes an undo or a redo: the text up to its number, which says the one or the other, and the rest.
fn put_turn(out: &mut RopeWriter, beginning: &[u8], number: u64) -> Result<(), AllocError>
    ensures text { OnOk result (out.new ≡ out.old ++ (beginning.now ++ (decimal number ++ codes "}"))) }
    ensures number { OnOk result (number < 2 ^ 64) }
{
    out.put(beginning)?;
    put_number(out, number)?;
    out.put(b"}")
}

/// Writes an emptying.
fn put_empty(out: &mut RopeWriter, number: u64, marks: &[PackMark]) -> Result<(), AllocError>
    ensures text { OnOk result (out.new ≡ out.old ++ compact_text (empty_data Moments number marks.now)) }
    ensures number { OnOk result (number < 2 ^ 64) }
    ensures fit { OnOk result (AllByRecursion FitsMark marks.now) }
{
    out.put(b"{\"event\":\"empty\",\"form\":2,\"marks\":[")?;
    put_marks(out, marks)?;
    out.put(b"],\"number\":")?;
    put_number(out, number)?;
    out.put(b"}")
}
