ghost use Rattle.std.specs.Prelude.{◌<◌, ◌≡◌, ◌+◌, [], IfErr, ◌⊎◌};
ghost use Rattle.keep_journal.specs.History.{ComesNext};
ghost use Rattle.keep_journal.specs.Journal.{posted};
ghost use Rattle.keep_ledger.specs.Entering.{Enters};
ghost use Rattle.keep_ledger.specs.Request.{CanBeMade};

use crate::entering::enter;
use crate::ledger::Ledger;
use crate::preparing::{Prepared, prepare};
use crate::reply::Refusal;
use keep_journal::{Entry, History, Posting, Request, Told};
use keep_shelf::Shelf;

impl<S: Shelf> Ledger<S> {
    /// Brings the event of the request in, once nothing objects and no move is due. Its own moves are due then. Where
    /// memory runs out, or the shelf fails before the entry is written, nothing is changed.
    pub(crate) fn make(&mut self, request: Request) -> Result<Told, Refusal>
        requires settled { self.old.due ≡ [] }
        requires free { CanBeMade self.old.state request }
        ensures enters { Enters self.old request result self.new }
        ensures cause { IfErr result (λ refusal. (refusal ≡ Refusal.Memory) ⊎ (refusal ≡ Refusal.Fault)) }
    {
        self.history.reserve()?;
        let prepared = prepare(self.alloc, &self.history, self.live.repo(), request)?;
        enter(
            &self.history,
            &mut self.live,
            &mut self.touch,
            &mut self.shelf,
            &prepared,
        )?;
        let Prepared { entry, moves, .. } = prepared;
        self.moves = moves;
        self.made = 0;
        Ok(post(&mut self.history, entry))
    }
}

/// Appends the entry, for which there is room.
fn post(history: &mut History, entry: Posting) -> Told
    requires room { 0 < history.old.room }
    requires next { ComesNext history.old.journal entry }
    ensures told { result ≡ record { number = entry.event.number; at = entry.at } }
    ensures events { history.new.journal ≡ posted history.old.journal entry.at entry.event }
{
    let told = told_of(entry.as_entry());
    history.push(entry);
    told
}

/// What is told of the entry.
fn told_of(entry: &Entry) -> Told
    ensures { result ≡ record { number = entry.now.event.number; at = entry.now.at } }
{
    Told {
        number: entry.event.number,
        at: entry.at,
    }
}
