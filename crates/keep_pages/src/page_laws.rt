ghost use Rattle.keep_pages.specs.Laws.{AcceptedIsFollowed, AcceptedStayOpen, EventsAreCounted, EventsTellAll, HistoriesGrow, HistoriesStayOpen};

use crate::sheet::Sheet;

/// An accepted event says all that its request leaves, and a sheet of the ledger can follow it.
pub fn accepted_events_are_followed()
    ensures tells { EventsTellAll }
    ensures followed { AcceptedIsFollowed }
{}

/// An accepted request leaves a ledger whose events make its live repository of its opening.
pub fn accepted_requests_leave_open_ledgers()
    ensures { AcceptedStayOpen }
{}

/// A list of events that were accepted one after another stays one with the next accepted event, and leaves such a
/// ledger too. Each event has the next number.
pub fn histories_grow()
    ensures grows { HistoriesGrow }
    ensures stays { HistoriesStayOpen }
    ensures counted { EventsAreCounted }
{}

/// A sheet can be handed to another thread, and lent to several at once.
pub fn sheets_cross_threads() {
    cross::<Sheet>()
}

/// What can be handed to another thread, and lent to several at once.
fn cross<T: Send + Sync>() {}
