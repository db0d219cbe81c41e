ghost use Rattle.std.specs.Prelude.{◌≡◌, []};

use keep_catalog::LiveRepo;
use keep_journal::History;
use keep_names::FileName;
use keep_repo::{Bytes, Repo};
use keep_view::View;
use std::alloc::{AllocError, Global};

/// What the lines of a case work with: a repository without events.
#[derive(Drop)]
pub(crate) struct State {
    pub alloc: Global,
    pub live: LiveRepo,
    pub history: History,
    /// The id for which `$` stands: that of the last blob.
    pub last: String,
    ghost fresh: { history.journal.entries ≡ [] },
}

impl State {
    /// An empty repository.
    pub fn new(alloc: Global) -> State {
        State {
            alloc,
            live: LiveRepo::new(alloc, Repo::new(alloc)),
            history: History::new(alloc, 0),
            last: String::new(alloc),
        }
    }

    /// Begins a case, with an empty repository.
    pub fn begin(&mut self) {
        *self = State::new(self.alloc);
    }

    /// The repository, with this file, too.
    pub fn put(&mut self, name: FileName, bytes: Vec<u8>) -> Result<(), AllocError> {
        let mut repo = self.live.repo().copy()?;
        repo.insert_file(name, Bytes::new(self.alloc, bytes)?)?;
        self.live = LiveRepo::new(self.alloc, repo);
        Ok(())
    }

    /// What is shown of it.
    pub fn view(&self) -> View<'_> {
        View::without_events(&self.live, &self.history)
    }
}
