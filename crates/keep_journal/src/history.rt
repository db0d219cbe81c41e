ghost use Rattle.std.specs.Prelude.{◌≡◌, ◌<◌, ◌≤◌, [], map, option_copied, IfOk, IfSome, MatchOption, None, OnOk};
ghost use Rattle.std.specs.Option.{option_map};
ghost use Rattle.keep_change.specs.Form.{IsWellFormed};
ghost use Rattle.keep_change.specs.Lists.{file_names};

use crate::event::{Entry, Notice};
use crate::posting::Posting;
use crate::standing::{
    Standing, copy_names, copy_notices, copy_standings, final_after, last_after, note, note_names,
};
use keep_change::{Change, Listed, SharedChange};
use keep_log::Log;
use keep_names::FileName;
use std::alloc::{AllocError, Global};
use std::marker::Model;

/// How a change of some number stands.
#[derive(Clone, Copy, Debug, PartialEq, Eq)]
pub enum Status {
    /// There is no such change.
    Unknown,
    /// It can no longer be undone or redone.
    Final,
    InForce,
    Undone,
}

/// The events of a repository in their order, each under its own number, and what became of each change.
///
/// Of a final change it holds the names of the files that it added, and no bytes. The entries are told whole for
/// clauses alone: they take no memory.
pub struct History {
    /// What is told of each event.
    notices: Vec<Notice>,
    /// The names of the files that each change added since the history began, by number.
    names: Vec<Listed<FileName>>,
    /// The changes that aren't final, by number.
    standings: Vec<Standing>,
    /// The number up to which changes were final when the history began, and that up to which they are.
    base: u64,
    final_number: u64,
    last_change: u64,
    entries: Log<Entry>,
}

// One call drops it, where each `?` would else drop each part of it, which is long to prove.
impl Drop for History {
    fn drop(self) {
        let History {
            notices: _,
            names: _,
            standings: _,
            base: _,
            final_number: _,
            last_change: _,
            entries: _,
        } = self;
    }
}

impl Model for History {
    ghost use Rattle.std.specs.Prelude.{◌-◌, map, min, vec_len, vec_capacity};
    ghost use Rattle.keep_journal.specs.Journal.{Recorded};

    ghost Value = { Recorded };

    ghost use Rattle.keep_journal.specs.Standings.{IsUpToDate, changes_in};

    ghost view = { λ h. record {
      journal = record { base = h.base; entries = h.entries.items };
      room = min
          (vec_capacity h.notices - vec_len h.notices)
          (min (vec_capacity h.names - vec_len h.names) (vec_capacity h.standings - vec_len h.standings));
      held = changes_in h.standings.items;
    } };

    ghost invariant = { λ h. IsUpToDate
        (record { base = h.base; entries = h.entries.items })
        h.notices.items h.names.items h.standings.items h.final_number h.last_change };
}

impl History {
    ghost use Rattle.keep_journal.specs.History.{change_of, final_number, last_change, length_of, notices_of, status_of, ComesNext, IsLegal, IsNumbered};
    ghost use Rattle.keep_journal.specs.Journal.{Journal, posted};
    ghost use Rattle.keep_journal.specs.Kept.{kept_change, unfinal_changes};
    ghost use Rattle.keep_journal.specs.Opening.{AreWellFormed};
    ghost use Rattle.keep_journal.specs.Standings.{IsStandingOf};

    /// The history without events, in which all changes up to this number are final.
    pub fn new(alloc: Global, final_number: u64) -> History
        ensures { result.journal ≡ record { base = final_number; entries = [] } }
    {
        History {
            notices: Vec::new(alloc),
            names: Vec::new(alloc),
            standings: Vec::new(alloc),
            base: final_number,
            final_number,
            last_change: final_number,
            entries: Log::new(),
        }
    }

    /// Another history of the same events. The changes are shared.
    pub fn copy(&self, alloc: Global) -> Result<History, AllocError>
        ensures journal { IfOk result (λ copy. copy.journal ≡ self.now.journal) }
        ensures held { IfOk result (λ copy. copy.held ≡ self.now.held) }
    {
        Ok(History {
            notices: copy_notices(alloc, self.notices.as_slice())?,
            names: copy_names(alloc, self.names.as_slice())?,
            standings: copy_standings(alloc, self.standings.as_slice())?,
            base: self.base,
            final_number: self.final_number,
            last_change: self.last_change,
            entries: self.entries.again(),
        })
    }

    /// What is told of each event, in their order.
    pub fn notices(&self) -> &[Notice]
        ensures exact { result.now ≡ notices_of self.now.journal }
        ensures numbered { IsNumbered self.now.journal }
        ensures legal { IsLegal self.now.journal }
    {
        self.notices.as_slice()
    }

    /// The number of the last event, 0 where there is none.
    pub fn length(&self) -> u64
        ensures { result ≡ length_of self.now.journal }
    {
        match self.notices.last() {
            Some(notice) => notice.at,
            None => 0,
        }
    }

    /// The number of the last change, 0 where there is none.
    pub fn last_change(&self) -> u64
        ensures exact { result ≡ last_change self.now.journal }
        ensures numbered { IsNumbered self.now.journal }
    {
        self.last_change
    }

    /// The number of the last change that is final, 0 where none is.
    pub fn final_number(&self) -> u64
        ensures { result ≡ final_number self.now.journal }
    {
        self.final_number
    }

    pub fn status(&self, n: u64) -> Status
        ensures { result ≡ status_of self.now.journal n }
    {
        if n == 0 || self.last_change < n {
            return Status::Unknown;
        }
        if n <= self.final_number {
            return Status::Final;
        }
        match self.standing(n) {
            Some(standing) if standing.in_force => Status::InForce,
            _ => Status::Undone,
        }
    }

    /// Change n, where it isn't final.
    pub fn change(&self, n: u64) -> Option<&Change>
        ensures exact { final_number self.now.journal < n → option_copied result ≡ change_of self.now.journal n }
        ensures gone { n ≤ final_number self.now.journal → option_copied result ≡ None }
    {
        Some(self.shared_change(n)?.as_change())
    }

    /// Change n, where it isn't final, as it is shared: a clone is another holder of the same lists.
    pub fn shared_change(&self, n: u64) -> Option<&SharedChange>
        ensures exact { final_number self.now.journal < n → option_copied result ≡ change_of self.now.journal n }
        ensures gone { n ≤ final_number self.now.journal → option_copied result ≡ None }
    {
        Some(&self.standing(n)?.change)
    }

    /// Change n, where it is in force and isn't final.
    pub fn kept_change(&self, n: u64) -> Option<&Change>
        ensures exact { option_copied result ≡ kept_change self.now.journal n }
        ensures formed { AreWellFormed self.now.journal → IfSome (option_copied result) IsWellFormed }
    {
        let standing = self.standing(n)?;
        if !standing.in_force {
            return None;
        }
        Some(standing.change.as_change())
    }

    /// The names of the files that change n added, be it final or not, if the history has it. A change that was final
    /// when the history began isn't in it.
    pub fn names_added(&self, n: u64) -> Option<&[FileName]>
        ensures { option_copied result ≡ option_map (λ c. file_names c.adds) (change_of self.now.journal n) }
    {
        if n <= self.base {
            return None;
        }
        let place = (n - self.base - 1) as usize;
        Some(self.names.get(place)?.as_slice())
    }

    /// Makes room for one more event.
    pub fn reserve(&mut self) -> Result<(), AllocError>
        ensures same { self.new.journal ≡ self.old.journal }
        ensures ok { OnOk result (0 < self.new.room) }
    {
        self.notices.reserve(1)?;
        self.names.reserve(1)?;
        self.standings.reserve(1)
    }

    /// Appends the event, for which there is room. It takes no memory, and what an emptying makes final is let go: the
    /// changes that are held with their bytes are those that aren't final.
    pub fn push(&mut self, posting: Posting)
        requires room { 0 < self.old.room }
        requires next { ComesNext self.old.journal posting }
        ensures posted { self.new.journal ≡ posted self.old.journal posting.at posting.event }
        ensures held { self.new.held ≡ unfinal_changes self.new.journal }
    {
        let Posting { entry, names } = posting;
        self.entries = self.entries.and(&entry);
        self.notices.push_reserved(Notice::of(&entry));
        note_names(&mut self.names, names);
        let final_number = final_after(self.final_number, &entry.event);
        self.last_change = last_after(self.last_change, &entry.event);
        note(&mut self.standings, self.final_number, entry.event);
        self.final_number = final_number;
    }

    /// How change n stands, where it isn't final.
    fn standing(&self, n: u64) -> Option<&Standing>
        ensures { MatchOption (option_copied result)
            (final_number self.now.journal < n → change_of self.now.journal n ≡ None)
            (IsStandingOf self.now.journal n) }
    {
        if n <= self.final_number {
            return None;
        }
        let place = n - self.final_number - 1;
        self.standings.get(place as usize)
    }
}
