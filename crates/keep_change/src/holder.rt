ghost use Rattle.std.specs.Prelude.{◌≡◌, is_some};
ghost use Rattle.keep_repo.specs.Facet.{Stored, Marked};
ghost use Rattle.keep_change.specs.Change.{holds_same};

use keep_names::{FileName, Id};
use keep_repo::{Bytes, Facet, Mark, Repo};

/// What can be asked what each facet holds: a repository, or a place in a history.
pub trait Holder {
    ghost use Rattle.keep_change.specs.Change.{Holding};

    /// What each facet holds.
    ghost holding: { Self → Holding };

    fn is_filled(&self, facet: Facet) -> bool
        ensures { result ≡ is_some (holding self.now facet) };

    /// Whether the file is there, with just these bytes.
    fn has_file(&self, name: FileName, bytes: &Bytes) -> bool
        ensures { result ≡ holds_same (holding self.now (Facet.File name)) (Some (Stored bytes.now)) };

    /// Whether the pack is marked, with just this mark: at the same moment.
    fn has_mark(&self, pack: Id, mark: Mark) -> bool
        ensures { result ≡ holds_same (holding self.now (Facet.Mark pack)) (Some (Marked mark)) };
}

impl Holder for Repo {
    ghost use Rattle.keep_repo.specs.Repository.{held};

    ghost holding = { held };

    fn is_filled(&self, facet: Facet) -> bool {
        self.facet_filled(facet)
    }

    fn has_file(&self, name: FileName, bytes: &Bytes) -> bool {
        match self.get(name) {
            Some(held) => held.as_slice() == bytes.as_slice(),
            None => false,
        }
    }

    fn has_mark(&self, pack: Id, mark: Mark) -> bool {
        self.mark_of(pack) == Some(mark.moment)
    }
}
