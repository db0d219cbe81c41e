ghost use Rattle.std.specs.Prelude.{◌≡◌, ◌<◌, IfOk};
ghost use Rattle.std.specs.Option.{option_map};
ghost use Rattle.keep_repo.specs.Repository.{Repository};
ghost use Rattle.keep_journal.specs.Event.{committing};
ghost use Rattle.keep_journal.specs.History.{change_of, final_number};
ghost use Rattle.keep_journal.specs.Opening.{IsOpen};
ghost use Rattle.keep_reading.specs.Settled.{last_event as last_event_of};

use keep_change::What;
use keep_journal::{Event, EventKind, History};
use keep_ledger::marks_under;
use keep_repo::Repo;
use std::alloc::AllocError;

/// The last event of a history, if it has one, with its change or its marks. A commit's change is shared with the
/// history. The marks of an emptying are told by the repository that the events left, and they alone take memory.
pub fn last_event(history: &History, live: &Repo) -> Result<Option<Event>, AllocError>
    ensures { let journal = history.now.journal in
        (opening : Repository) → IsOpen opening journal live.now
        → IfOk result (λ last. last ≡ last_event_of journal) }
{
    let Some(last) = history.notices().last() else {
        return Ok(None);
    };
    let number = last.change;
    match last.what {
        What::Commit => commit_of(history, number),
        What::Undo => Ok(Some(Event {
            number,
            kind: EventKind::Undo,
        })),
        What::Redo => Ok(Some(Event {
            number,
            kind: EventKind::Redo,
        })),
        What::Empty => {
            let marks = marks_under(live, history, number)?;
            Ok(Some(Event {
                number,
                kind: EventKind::Empty(marks),
            }))
        }
    }
}

/// The commit of change n, which isn't final, with the change shared.
fn commit_of(history: &History, n: u64) -> Result<Option<Event>, AllocError>
    requires { final_number history.now.journal < n }
    ensures { IfOk result (λ event. event ≡ option_map (committing n) (change_of history.now.journal n)) }
{
    let Some(change) = history.shared_change(n) else {
        return Ok(None);
    };
    let change = change.clone()?;
    Ok(Some(Event {
        number: n,
        kind: EventKind::Commit(change),
    }))
}
