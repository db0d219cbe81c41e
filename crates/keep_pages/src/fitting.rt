ghost use Rattle.std.specs.Prelude.{◌↔◌, ◌<◌, IsTrue};
ghost use Rattle.keep_journal.specs.History.{final_number, Fits};

use keep_journal::{Event, EventKind, History, Status};

/// Whether the event is about a change that isn't final, and fits.
pub(crate) fn fits(history: &History, event: &Event) -> bool
    ensures { let journal = history.now.journal in
        IsTrue result ↔ ((final_number journal < event.now.number) × Fits journal event.now) }
{
    let number = event.number;
    match &event.kind {
        EventKind::Commit(_) => number > 0 && number - 1 == history.last_change(),
        EventKind::Undo => matches!(history.status(number), Status::InForce),
        EventKind::Redo => matches!(history.status(number), Status::Undone),
        EventKind::Empty(_) => matches!(history.status(number), Status::InForce | Status::Undone),
    }
}
