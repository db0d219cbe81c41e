ghost use Rattle.std.specs.Prelude.{◌≡◌, IfOk};

use keep_journal::{Event, EventKind};
use std::alloc::{AllocError, Global};

/// A copy of the event. A commit's change is shared, and the marks of an emptying are copied.
pub fn copy_event(alloc: Global, event: &Event) -> Result<Event, AllocError>
    ensures { IfOk result (λ copy. copy ≡ event.now) }
{
    let kind = copy_kind(alloc, &event.kind)?;
    Ok(Event {
        number: event.number,
        kind,
    })
}

fn copy_kind(alloc: Global, kind: &EventKind) -> Result<EventKind, AllocError>
    ensures { IfOk result (λ copy. copy ≡ kind.now) }
{
    match kind {
        EventKind::Commit(change) => {
            let change = change.clone()?;
            Ok(EventKind::Commit(change))
        }
        EventKind::Undo => Ok(EventKind::Undo),
        EventKind::Redo => Ok(EventKind::Redo),
        EventKind::Empty(marks) => {
            let marks = marks.copy(alloc)?;
            Ok(EventKind::Empty(marks))
        }
    }
}
