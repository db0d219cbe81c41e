ghost use Rattle.std.specs.Prelude.{◌≡◌};
ghost use Rattle.keep_change.specs.Halves.{turned};

use crate::change::{Change, PackMark};
use crate::stored_file::StoredFile;

/// Which way a change is turned.
#[derive(Clone, Copy, PartialEq, Eq)]
pub enum Turn {
    /// It is made.
    Make,
    /// It is taken back.
    TakeBack,
}

impl Change {
    /// The files that come where the change is turned this way.
    pub fn coming_files(&self, turn: Turn) -> &[StoredFile]
        ensures { result.now ≡ (turned turn self.now).adds }
    {
        match turn {
            Turn::Make => self.adds.as_slice(),
            Turn::TakeBack => self.drops.as_slice(),
        }
    }

    /// The files that go.
    pub fn going_files(&self, turn: Turn) -> &[StoredFile]
        ensures { result.now ≡ (turned turn self.now).drops }
    {
        match turn {
            Turn::Make => self.drops.as_slice(),
            Turn::TakeBack => self.adds.as_slice(),
        }
    }

    /// The marks that come.
    pub(crate) fn coming_marks(&self, turn: Turn) -> &[PackMark]
        ensures { result.now ≡ (turned turn self.now).sets }
    {
        match turn {
            Turn::Make => self.sets.as_slice(),
            Turn::TakeBack => self.clears.as_slice(),
        }
    }

    /// The marks that go.
    pub(crate) fn going_marks(&self, turn: Turn) -> &[PackMark]
        ensures { result.now ≡ (turned turn self.now).clears }
    {
        match turn {
            Turn::Make => self.clears.as_slice(),
            Turn::TakeBack => self.sets.as_slice(),
        }
    }
}
