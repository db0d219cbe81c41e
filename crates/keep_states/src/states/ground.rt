ghost use Rattle.std.specs.Prelude.{◌≡◌, []};

use crate::stop::Stop;
use keep_catalog::LiveRepo;
use keep_hooks::NoHooks;
use keep_journal::History;
use keep_ledger::{Ledger, OpenError, Refusal, Request, Told};
use keep_repo::Repo;
use keep_rope::Rope;
use keep_shelf::{Key, MemoryShelf, Shelf};
use keep_view::View;
use std::alloc::Global;

/// The repository of a case: by itself, and under its changes once something is asked of them.
#[derive(Drop)]
pub(crate) enum Ground {
    Alone(Alone),
    Changed(Ledger<MemoryShelf>),
}

/// A repository without events.
#[derive(Drop)]
pub(crate) struct Alone {
    live: LiveRepo,
    history: History,
    ghost fresh: { history.journal.entries ≡ [] },
}

impl Ground {
    /// The repository, without events.
    pub fn new(alloc: Global, repo: Repo) -> Ground {
        Ground::Alone(Alone {
            live: LiveRepo::new(alloc, repo),
            history: History::new(alloc, 0),
        })
    }

    /// What is shown of it.
    pub fn view(&self) -> View<'_> {
        match self {
            Ground::Alone(alone) => View::without_events(&alone.live, &alone.history),
            Ground::Changed(ledger) => ledger.view(),
        }
    }

    /// The present repository, lent.
    pub fn live(&self) -> &Repo {
        match self {
            Ground::Alone(alone) => alone.live.repo(),
            Ground::Changed(ledger) => ledger.live(),
        }
    }

    /// Asks what a ledger over the repository replies.
    pub fn ask(&mut self, alloc: Global, request: Request) -> Result<Result<Told, Refusal>, Stop> {
        self.put_under_changes(alloc)?;
        match self {
            Ground::Alone(_) => Err(Stop::NoLine),
            Ground::Changed(ledger) => Ok(ledger.ask(&mut NoHooks {}, request)),
        }
    }

    /// Puts a repository by itself under its changes.
    fn put_under_changes(&mut self, alloc: Global) -> Result<(), Stop> {
        if let Ground::Alone(alone) = self {
            let ledger = ledger_over(alloc, alone.live.repo())?;
            *self = Ground::Changed(ledger);
        }
        Ok(())
    }
}

/// A ledger over the files. Marks come by its changes alone.
fn ledger_over(alloc: Global, repo: &Repo) -> Result<Ledger<MemoryShelf>, Stop> {
    let mut shelf = MemoryShelf::new(alloc);
    let (names, packs) = repo.list()?;
    if !packs.is_empty() {
        return Err(Stop::NoLine);
    }
    for name in &names {
        if let Some(bytes) = repo.get(*name) {
            let bytes = Rope::of(bytes.clone()?);
            shelf.write(Key::Live(*name), &bytes)?;
        }
    }
    Ok(Ledger::open(alloc, shelf).map_err(OpenError::from)?)
}
