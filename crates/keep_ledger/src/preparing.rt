ghost use Rattle.std.specs.Prelude.{◌≡◌, ◌<◌, ◌+◌, IfOk};
ghost use Rattle.keep_journal.specs.History.{Fits, final_number, length_of};
ghost use Rattle.keep_journal.specs.Opening.{IsOpen, opening_under};
ghost use Rattle.keep_entries.specs.Entry.{Fits as FitsEntry};
ghost use Rattle.keep_entries.specs.Spelling.{entry_text};
ghost use Rattle.keep_moves.specs.Lists.{moves_of};
ghost use Rattle.keep_ledger.specs.Entering.{moves_again as again};
ghost use Rattle.keep_ledger.specs.LedgerState.{ledger_of_live};
ghost use Rattle.keep_ledger.specs.Made.{event_of};
ghost use Rattle.keep_ledger.specs.Request.{CanBeMade};

use crate::opening_marks::marks_under;
use keep_change::{SharedChange, Turn};
use keep_journal::{Entry, Event, EventKind, History, Posting, Request};
use keep_moves::{Move, entry_of, first_moves, swept_moves, turn_moves};
use keep_repo::Repo;
use keep_rope::Rope;
use std::alloc::{AllocError, Global};

/// What takes memory of an event: its entry, the entry's text, and its moves.
#[derive(Drop)]
pub(crate) struct Prepared {
    pub entry: Posting,
    pub text: Rope,
    pub moves: Vec<Move>,
}

/// Prepares the event of the request, which comes next after this history.
pub(crate) fn prepare(
    alloc: Global,
    history: &History,
    live: &Repo,
    request: Request,
) -> Result<Prepared, AllocError>
    requires open { IsOpen (opening_under history.now.journal live.now) history.now.journal live.now }
    requires free { CanBeMade (ledger_of_live history.now.journal live.now) request }
    ensures at { IfOk result (λ made. made.entry.at ≡ length_of history.now.journal + 1) }
    ensures event { let b = ledger_of_live history.now.journal live.now in
        IfOk result (λ made. made.entry.event ≡ event_of b request) }
    ensures fits { IfOk result (λ made. Fits history.now.journal made.entry.event) }
    ensures written { IfOk result (λ made. FitsEntry made.entry.event) }
    ensures text { IfOk result (λ made. made.text ≡ entry_text made.entry.event) }
    ensures moves { IfOk result (λ made. made.moves.items ≡ moves_of history.now.journal made.entry.event) }
{
    let at = history.length() + 1;
    let event = event_for(alloc, history, live, request)?;
    let entry = Entry { at, event };
    let text = entry_of(alloc, &entry)?;
    let moves = moves_for(alloc, history, &entry.event)?;
    let entry = Posting::of(alloc, entry)?;
    Ok(Prepared { entry, text, moves })
}

/// The event of the request.
fn event_for(
    alloc: Global,
    history: &History,
    live: &Repo,
    request: Request,
) -> Result<Event, AllocError>
    requires open { IsOpen (opening_under history.now.journal live.now) history.now.journal live.now }
    requires free { CanBeMade (ledger_of_live history.now.journal live.now) request }
    ensures event { let b = ledger_of_live history.now.journal live.now in
        IfOk result (λ event. event ≡ event_of b request) }
    ensures fits { IfOk result (λ event. Fits history.now.journal event) }
{
    match request {
        Request::Commit(planned) => {
            let change = SharedChange::new(alloc, planned.change)?;
            let number = history.last_change() + 1;
            let kind = EventKind::Commit(change);
            Ok(Event { number, kind })
        }
        Request::Undo(number) => {
            let kind = EventKind::Undo;
            Ok(Event { number, kind })
        }
        Request::Redo(number) => {
            let kind = EventKind::Redo;
            Ok(Event { number, kind })
        }
        Request::Empty(number) => {
            let marks = marks_under(live, history, number)?;
            let kind = EventKind::Empty(marks);
            Ok(Event { number, kind })
        }
    }
}

/// The moves of an event that comes next after this history.
fn moves_for(alloc: Global, history: &History, event: &Event) -> Result<Vec<Move>, AllocError>
    requires { Fits history.now.journal event.now }
    ensures { IfOk result (λ moves. moves.items ≡ moves_of history.now.journal event.now) }
{
    let number = event.number;
    match &event.kind {
        EventKind::Commit(change) => first_moves(alloc, number, change.as_change()),
        EventKind::Undo => moves_again(alloc, history, Turn::TakeBack, number),
        EventKind::Redo => moves_again(alloc, history, Turn::Make, number),
        EventKind::Empty(_) => swept_moves(alloc, history, number),
    }
}

/// The moves of change n of the history, which isn't final, when it is turned again.
fn moves_again(
    alloc: Global,
    history: &History,
    turn: Turn,
    n: u64,
) -> Result<Vec<Move>, AllocError>
    requires { final_number history.now.journal < n }
    ensures { IfOk result (λ moves. moves.items ≡ again history.now.journal n turn) }
{
    match history.change(n) {
        Some(change) => turn_moves(alloc, turn, n, change),
        None => Ok(Vec::new(alloc)),
    }
}
