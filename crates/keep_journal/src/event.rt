ghost use Rattle.std.specs.Prelude.{◌≡◌};

use keep_change::{Listed, PackMark, SharedChange, What};

/// What an event did.
#[derive(Drop)]
pub enum EventKind {
    /// The change was made, for the first time.
    Commit(SharedChange),
    /// The change was taken back.
    Undo,
    /// The change was made again.
    Redo,
    /// All changes up to this one became final, and the repository that the others are made of has these marks then,
    /// by pack.
    Empty(Listed<PackMark>),
}

/// What happened to a repository, with the number of the change that it is about.
#[derive(Drop)]
pub struct Event {
    pub number: u64,
    pub kind: EventKind,
}

impl Event {
    ghost use Rattle.keep_journal.specs.Event.{what_of};

    pub fn what(&self) -> What
        ensures { result ≡ what_of self.now }
    {
        match &self.kind {
            EventKind::Commit(_) => What::Commit,
            EventKind::Undo => What::Undo,
            EventKind::Redo => What::Redo,
            EventKind::Empty(_) => What::Empty,
        }
    }
}

/// An event under its own number. Numbers ascend from above 0, and some may be missing.
#[derive(Drop)]
pub struct Entry {
    pub at: u64,
    pub event: Event,
}

/// What a history tells of an event for good: its number, what it did, and to which change.
#[derive(Clone, Copy)]
pub struct Notice {
    pub at: u64,
    pub what: What,
    pub change: u64,
}

impl Notice {
    ghost use Rattle.keep_journal.specs.Event.{notice_of};

    /// What is told of the entry.
    pub(crate) fn of(entry: &Entry) -> Notice
        ensures { result ≡ notice_of entry.now }
    {
        Notice {
            at: entry.at,
            what: entry.event.what(),
            change: entry.event.number,
        }
    }
}
