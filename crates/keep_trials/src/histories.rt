use keep_change::{Change, SharedChange};
use keep_journal::{Entry, Event, EventKind, History, Posting, Status};
use std::test::Fail;

/// Four changes were final when it began, and some events before the first are missing.
#[test]
fn a_history_begins_past_one(rt: HostRuntime) -> Result<(), Fail> {
    let alloc = rt.alloc();
    let mut history = History::new(alloc, 4);
    assert!(rt; history.length() == 0 && history.last_change() == 4);
    history.reserve()?;
    let change = SharedChange::new(alloc, Change::new(alloc))?;
    let kind = EventKind::Commit(change);
    let event = Event { number: 5, kind };
    history.push(Posting::of(alloc, Entry { at: 9, event })?);
    history.reserve()?;
    let kind = EventKind::Undo;
    let event = Event { number: 5, kind };
    history.push(Posting::of(alloc, Entry { at: 12, event })?);
    assert!(rt; history.length() == 12 && history.last_change() == 5);
    assert!(rt; history.status(4) == Status::Final && history.change(4).is_none());
    assert!(rt; history.status(5) == Status::Undone && history.change(5).is_some());
    assert!(rt; history.status(6) == Status::Unknown && history.status(0) == Status::Unknown);
    Ok(())
}
