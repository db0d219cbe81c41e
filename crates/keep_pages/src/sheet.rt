ghost use Rattle.std.specs.Prelude.{◌≡◌, ◌↔◌, IfOk, IsTrue, OnErr, OnOk};
ghost use Rattle.keep_repo.specs.Repository.{Repository};
ghost use Rattle.keep_journal.specs.History.{length_of};
ghost use Rattle.keep_journal.specs.Opening.{AreWellFormed, IsOpen};
ghost use Rattle.keep_view.specs.Shown.{shown_of};
ghost use Rattle.keep_pages.specs.Following.{CanFollow, IsFormedEvent};
ghost use Rattle.keep_pages.specs.Sheet.{IsLaid, followed};

use crate::event_copies::copy_event;
use crate::fitting::fits;
use crate::turning::{can_turn, turn};
use keep_catalog::LiveRepo;
use keep_journal::{Entry, Event, History, Posting};
use keep_repo::Repo;
use keep_view::View;
use std::alloc::{AllocError, Global};
use std::marker::Model;

/// A copy of a repository under its history, which follows the events of the ledger that it was copied of, one at a
/// time. Bytes are shared.
#[derive(Drop)]
pub struct Sheet {
    alloc: Global,
    live: LiveRepo,
    history: History,
}

impl Model for Sheet {
    ghost use Rattle.std.specs.Coded.{codes};
    ghost use Rattle.keep_repo.specs.Repository.{coded_repository};
    ghost use Rattle.keep_journal.specs.Opening.{AreWellFormed};
    ghost use Rattle.keep_pages.specs.Sheet.{SheetState};

    ghost Value = { SheetState };

    ghost coded = { Prim.hlevel (codes, coded_repository) };

    ghost view = { λ s. record { events = s.history.journal; live = s.live } };

    ghost invariant = { λ s. AreWellFormed s.history.journal };
}

impl Sheet {
    /// The sheet of this history, whose events left this repository. Each pack, index and snapshot is read.
    pub fn of(alloc: Global, history: &History, live: &Repo) -> Result<Sheet, AllocError>
        requires { AreWellFormed history.now.journal }
        ensures { IfOk result (λ sheet. sheet ≡ record { events = history.now.journal; live = live.now }) }
    {
        let history = history.copy(alloc)?;
        let repo = live.copy()?;
        Ok(Sheet {
            alloc,
            live: LiveRepo::new(alloc, repo),
            history,
        })
    }

    /// The number of the last event, 0 where there is none.
    pub fn length(&self) -> u64
        ensures { result ≡ length_of self.now.events }
    {
        self.history.length()
    }

    /// The repository under its history, as planners and readers are shown it. It takes no memory.
    pub fn view(&self) -> View<'_>
        requires { IsLaid self.now }
        ensures { let s = self.entry.now in (opening : Repository) → IsOpen opening s.events s.live
            → result ≡ shown_of opening s.events s.live }
    {
        View::of(&self.live, &self.history)
    }

    /// Whether the sheet can follow the event. It takes no memory.
    pub fn can_follow(&self, event: &Event) -> bool
        requires { IsFormedEvent event.now }
        ensures { IsTrue result ↔ CanFollow self.now event.now }
    {
        self.history.length() < u64::MAX
            && fits(&self.history, event)
            && can_turn(self.live.repo(), &self.history, event)
    }

    /// Follows the event. Where memory runs out for it, the sheet is as it was.
    pub fn follow(&mut self, event: &Event) -> Result<(), AllocError>
        requires own { IsFormedEvent event.now }
        requires can { CanFollow self.old event.now }
        ensures followed { OnOk result (self.new ≡ followed self.old event.now) }
        ensures same { OnErr result (self.new ≡ self.old) }
    {
        let entry = Entry {
            at: self.history.length() + 1,
            event: copy_event(self.alloc, event)?,
        };
        let posting = Posting::of(self.alloc, entry)?;
        self.history.reserve()?;
        turn(&mut self.live, &self.history, event)?;
        self.history.push(posting);
        Ok(())
    }
}
