use keep_shelf::{FailingShelf, Shelf};
use std::fmt;

/// Which of the calls that are to come fail. The first of them is number 1.
#[derive(Clone, Copy)]
pub(crate) enum Plan {
    /// The one of this number. At 0 it is none.
    Once(u64),
    /// The one of this number and all that follow it.
    Onward(u64),
}

impl Plan {
    /// The shelf behind one that fails so.
    pub fn over<S: Shelf>(self, shelf: S) -> FailingShelf<S> {
        match self {
            Plan::Once(k) => FailingShelf::once(shelf, k),
            Plan::Onward(k) => FailingShelf::onward(shelf, k),
        }
    }

    /// The plan that lets so many calls pass first, and then goes as this one.
    pub fn after(self, calls: usize) -> Plan {
        let calls = calls as u64;
        match self {
            Plan::Once(k) => Plan::Once(k.saturating_add(calls)),
            Plan::Onward(k) => Plan::Onward(k.saturating_add(calls)),
        }
    }
}

impl fmt::Display for Plan {
    fn fmt<W: fmt::Write>(&self, f: &mut fmt::Formatter<W>) -> fmt::Result {
        match self {
            Plan::Once(k) => write!(f, "once {k}"),
            Plan::Onward(k) => write!(f, "onward {k}"),
        }
    }
}
