use crate::states::ground::Ground;
use keep_change::{Change, Planned};
use keep_jobs::Kit;
use keep_names::{FileName, Id};
use keep_plan::Filter;
use keep_repo::{Bytes, Mark, Repo};
use std::alloc::{AllocError, Global};
use std::mem;

/// What the lines of a case work with.
#[derive(Drop)]
pub(crate) struct State {
    pub alloc: Global,
    pub ground: Ground,
    /// The change that lines list, or that was planned last.
    pub held: Planned,
    /// Files that a backup is to have.
    pub files: Vec<(String, Vec<u8>)>,
    /// The moment of marks and sweeps.
    pub now: i64,
    /// The filter `all`.
    pub kit: Kit,
    /// The id for which `$` stands: that of the last tree.
    pub last: String,
}

/// No change, planned on an empty history.
pub(crate) fn no_change(alloc: Global) -> Planned {
    let change = Change::new(alloc);
    Planned { change, seen: 0 }
}

/// The kit that has nothing.
fn no_kit(alloc: Global) -> Kit {
    Kit {
        filters: Vec::new(alloc),
        vetoes: Vec::new(alloc),
        watches: Vec::new(alloc),
    }
}

/// The kit with this filter alone.
pub(crate) fn kit_of(alloc: Global, filter: Filter) -> Result<Kit, AllocError> {
    Ok(Kit {
        filters: vec![in alloc; filter]?,
        vetoes: Vec::new(alloc),
        watches: Vec::new(alloc),
    })
}

impl State {
    /// The state before the first case, with what is stored.
    pub fn new(alloc: Global, kit: Kit) -> State {
        State {
            alloc,
            ground: Ground::new(alloc, Repo::new(alloc)),
            held: no_change(alloc),
            files: Vec::new(alloc),
            now: 0,
            kit,
            last: String::new(alloc),
        }
    }

    /// Begins a case, with an empty repository.
    pub fn begin(&mut self) {
        let kit = mem::replace(&mut self.kit, no_kit(self.alloc));
        drop(mem::replace(self, State::new(self.alloc, kit)));
    }

    /// The repository by itself, with this file, too.
    pub fn put(&mut self, name: FileName, bytes: Bytes) -> Result<(), AllocError> {
        let mut repo = self.ground.live().copy()?;
        repo.insert_file(name, bytes)?;
        self.stand_on(repo);
        Ok(())
    }

    /// The repository by itself, with this mark, too.
    pub fn mark(&mut self, pack: Id, moment: i64) -> Result<(), AllocError> {
        let mut repo = self.ground.live().copy()?;
        repo.insert_mark(pack, Mark { moment })?;
        self.stand_on(repo);
        Ok(())
    }

    /// The repository by itself, without this file.
    pub fn remove(&mut self, name: FileName) -> Result<(), AllocError> {
        let mut repo = self.ground.live().copy()?;
        repo.remove_file(name);
        self.stand_on(repo);
        Ok(())
    }

    /// This repository by itself, without events.
    fn stand_on(&mut self, repo: Repo) {
        self.ground = Ground::new(self.alloc, repo);
    }
}
