ghost use Rattle.std.specs.Prelude.{◌≡◌, IfOk, option_map, string_bytes};
ghost use Rattle.keep_events.specs.Deeds.{taken_view};
ghost use Rattle.keep_events.specs.Events as spec;
ghost use Rattle.keep_events.specs.Events.{wrote_view};

use crate::purpose::{deed_of, deed_text};
use crate::shape::Shape;
use crate::taken::Taken;
use crate::wrote::Wrote;
use keep_change::What;
use keep_journal::Status;
use keep_rows::{Row, When, number_cell, number_or_null, texts_of, when_cell, when_value};
use keep_tables::Side;
use serde_json::{Value, json};
use std::alloc::{AllocError, Global};

/// An event of a history.
#[derive(Drop)]
pub struct EventRow {
    /// Its number.
    pub at: u64,
    pub what: What,
    /// The number of the change that it is about.
    pub change: u64,
    /// How that change stands now.
    pub status: Status,
    /// What the change wrote, where the event is its commit.
    pub wrote: Option<Wrote>,
    /// When it was written. A history doesn't know it: it is there once it was told.
    pub when: Option<When>,
}

impl EventRow {
    /// What the event did, as people read it.
    pub fn text(&self, alloc: Global) -> Result<String, AllocError>
        ensures { IfOk result (λ text. string_bytes text
            ≡ spec.event_text self.now.what self.now.change (option_map wrote_view self.now.wrote)) }
    {
        event_text(alloc, self.what, self.change, &self.wrote)
    }
}

impl Row for EventRow {
    ghost use Rattle.keep_events.specs.Events.{event_cells, event_data, event_head, event_sides, event_view};

    ghost row_sides = { event_sides };

    ghost row_head = { event_head };

    ghost row_cells = { λ row. event_cells (event_view row) };

    ghost row_data = { λ row. event_data (event_view row) };

    fn sides(alloc: Global) -> Result<Vec<Side>, AllocError> {
        Vec::from_slice(
            alloc,
            &[
                Side::Right,
                Side::Right,
                Side::Left,
                Side::Left,
                Side::Left,
                Side::Left,
            ],
        )
    }

    fn head(alloc: Global) -> Result<Vec<String>, AllocError> {
        texts_of(
            alloc,
            &["Event", "Change", "What", "When", "Files", "Standing"],
        )
    }

    fn cells(&self, alloc: Global) -> Result<Vec<String>, AllocError> {
        let at = number_cell(alloc, Some(self.at))?;
        let change = number_cell(alloc, Some(self.change))?;
        let what = self.text(alloc)?;
        let when = when_cell(alloc, self.when)?;
        let files = sizes_cell(alloc, &self.wrote)?;
        let standing = String::from_str(alloc, status_text(self.status))?;
        Ok(vec![in alloc; at, change, what, when, files, standing]?)
    }

    fn value(&self, alloc: Global) -> Result<Value, AllocError> {
        let added = number_or_null(added_in(&self.wrote));
        let cleared = number_or_null(cleared_in(&self.wrote));
        let dropped = number_or_null(dropped_in(&self.wrote));
        let set = number_or_null(set_in(&self.wrote));
        let standing = Value::try_from_str(alloc, status_text(self.status))?;
        let time = when_value(alloc, self.when)?;
        let what = Value::String(self.text(alloc)?);
        json!(in alloc; {
            "added": added,
            "change": self.change,
            "cleared": cleared,
            "dropped": dropped,
            "event": self.at,
            "set": set,
            "standing": standing,
            "time": time,
            "what": what
        })
    }
}

/// What an event did, as people read it.
fn event_text(
    alloc: Global,
    what: What,
    change: u64,
    wrote: &Option<Wrote>,
) -> Result<String, AllocError>
    ensures { IfOk result (λ text. string_bytes text
        ≡ spec.event_text what change (option_map wrote_view wrote.now)) }
{
    match what {
        What::Commit => wrote_text(alloc, wrote),
        What::Undo => format!(in alloc; "undo of {change}"),
        What::Redo => format!(in alloc; "redo of {change}"),
        What::Empty => format!(in alloc; "empty through {change}"),
    }
}

fn wrote_text(alloc: Global, wrote: &Option<Wrote>) -> Result<String, AllocError>
    ensures { IfOk result (λ text. string_bytes text ≡ spec.wrote_text (option_map wrote_view wrote.now)) }
{
    match wrote {
        Some(Wrote::Whole(shape, taken)) => {
            deed_text(alloc, deed_of(shape, is_made(taken)), shape, taken)
        }
        Some(Wrote::Final(_)) | None => String::from_str(alloc, "change"),
    }
}

fn is_made(taken: &Option<Taken>) -> bool
    ensures { result ≡ spec.is_made (option_map taken_view taken.now) }
{
    match taken {
        Some(taken) => taken.is_made,
        None => false,
    }
}

/// How many files and marks a change wrote: `+A -D *S ~C`.
fn sizes_cell(alloc: Global, wrote: &Option<Wrote>) -> Result<String, AllocError>
    ensures { IfOk result (λ text. string_bytes text ≡ spec.sizes_cell (option_map wrote_view wrote.now)) }
{
    match wrote {
        Some(Wrote::Whole(shape, _)) => shape_text(alloc, shape),
        Some(Wrote::Final(added)) => format!(in alloc; "+{added}"),
        None => Ok(String::new(alloc)),
    }
}

fn shape_text(alloc: Global, shape: &Shape) -> Result<String, AllocError>
    ensures { IfOk result (λ text. string_bytes text ≡ spec.shape_text shape.now) }
{
    let Shape {
        added,
        dropped,
        sets,
        clears,
        ..
    } = shape;
    format!(in alloc; "+{added} -{dropped} *{sets} ~{clears}")
}

fn status_text(status: Status) -> &'static str
    ensures { result.now ≡ spec.status_text status }
{
    match status {
        Status::Unknown => "unknown",
        Status::Final => "final",
        Status::InForce => "in force",
        Status::Undone => "undone",
    }
}

fn added_in(wrote: &Option<Wrote>) -> Option<u64>
    ensures { result ≡ spec.added_in (option_map wrote_view wrote.now) }
{
    match wrote {
        Some(Wrote::Whole(shape, _)) => Some(shape.added as u64),
        Some(Wrote::Final(added)) => Some(*added as u64),
        None => None,
    }
}

fn dropped_in(wrote: &Option<Wrote>) -> Option<u64>
    ensures { result ≡ spec.dropped_in (option_map wrote_view wrote.now) }
{
    match wrote {
        Some(Wrote::Whole(shape, _)) => Some(shape.dropped as u64),
        Some(Wrote::Final(_)) | None => None,
    }
}

fn set_in(wrote: &Option<Wrote>) -> Option<u64>
    ensures { result ≡ spec.set_in (option_map wrote_view wrote.now) }
{
    match wrote {
        Some(Wrote::Whole(shape, _)) => Some(shape.sets as u64),
        Some(Wrote::Final(_)) | None => None,
    }
}

fn cleared_in(wrote: &Option<Wrote>) -> Option<u64>
    ensures { result ≡ spec.cleared_in (option_map wrote_view wrote.now) }
{
    match wrote {
        Some(Wrote::Whole(shape, _)) => Some(shape.clears as u64),
        Some(Wrote::Final(_)) | None => None,
    }
}
