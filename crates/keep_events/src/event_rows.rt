ghost use Rattle.std.specs.Prelude.{◌≡◌, IfOk, map, option_map};
ghost use Rattle.keep_events.specs.Events as spec;
ghost use Rattle.keep_events.specs.Events.{event_of, event_view, last_of, names_added, wrote_view};

use crate::event::EventRow;
use crate::shape::shape_of;
use crate::taken::taken_in;
use crate::wrote::Wrote;
use keep_change::{Change, What};
use keep_journal::{History, Notice};
use std::alloc::{AllocError, Global};

/// The last events of a history, this many or all, in their order. When each was written isn't told yet.
pub fn events_of(
    alloc: Global,
    history: &History,
    last: Option<u64>,
) -> Result<Vec<EventRow>, AllocError>
    ensures { IfOk result (λ rows. map event_view rows.items ≡ spec.events_of history.now.journal last) }
{
    rows_of(alloc, history, last_notices(history.notices(), last))
}

fn last_notices(notices: &[Notice], last: Option<u64>) -> &[Notice]
    ensures { result.now ≡ last_of last notices.now }
{
    match last {
        Some(last) => &notices[(notices.len() as u64).saturating_sub(last) as usize..],
        None => notices,
    }
}

fn rows_of(
    alloc: Global,
    history: &History,
    notices: &[Notice],
) -> Result<Vec<EventRow>, AllocError>
    ensures { IfOk result (λ rows. map event_view rows.items ≡ map (event_of history.now.journal) notices.now) }
{
    let mut rows = Vec::with_capacity(alloc, notices.len())?;
    for notice in notices {
        rows.push(row_of(alloc, history, notice)?)?;
    }
    Ok(rows)
}

fn row_of(alloc: Global, history: &History, notice: &Notice) -> Result<EventRow, AllocError>
    ensures { IfOk result (λ row. event_view row ≡ event_of history.now.journal notice.now) }
{
    let wrote = wrote_by(alloc, history, notice.what, notice.change)?;
    Ok(EventRow {
        at: notice.at,
        what: notice.what,
        change: notice.change,
        status: history.status(notice.change),
        wrote,
        when: None,
    })
}

fn wrote_by(
    alloc: Global,
    history: &History,
    what: What,
    change: u64,
) -> Result<Option<Wrote>, AllocError>
    ensures { IfOk result (λ wrote. option_map wrote_view wrote ≡ spec.wrote_by history.now.journal what change) }
{
    match what {
        What::Commit => wrote_of(alloc, history, change),
        What::Undo | What::Redo | What::Empty => Ok(None),
    }
}

fn wrote_of(alloc: Global, history: &History, n: u64) -> Result<Option<Wrote>, AllocError>
    ensures { IfOk result (λ wrote. option_map wrote_view wrote ≡ spec.wrote_of history.now.journal n) }
{
    if n <= history.final_number() {
        return Ok(final_of(history, n));
    }
    match history.change(n) {
        Some(change) => Ok(Some(whole_of(alloc, change)?)),
        None => Ok(None),
    }
}

fn final_of(history: &History, n: u64) -> Option<Wrote>
    ensures { option_map wrote_view result ≡ option_map spec.final_of (names_added history.now.journal n) }
{
    match history.names_added(n) {
        Some(names) => Some(Wrote::Final(names.len())),
        None => None,
    }
}

fn whole_of(alloc: Global, change: &Change) -> Result<Wrote, AllocError>
    ensures { IfOk result (λ wrote. wrote_view wrote ≡ spec.whole_of change.now) }
{
    let shape = shape_of(alloc, change)?;
    let taken = taken_in(alloc, change.adds.as_slice())?;
    Ok(Wrote::Whole(shape, taken))
}
