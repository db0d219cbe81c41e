ghost use Rattle.std.specs.Prelude.{◌≡◌};
ghost use Rattle.keep_deeds.specs.declared.deed.NoDeed.TheVariants.{Memory};

use keep_acts::Choice;
use keep_jobs::Task;
use keep_ledger::Request;
use std::alloc::{AllocError, AllocFailed};

/// What a command asks of the book.
#[derive(Drop)]
pub enum Deed {
    /// Just this.
    Ask(Request),
    /// To take the change of this number back with all that lean on it.
    Cascade(u64),
    /// To do the task to the snapshots that are chosen.
    Do {
        choice: Choice,
        task: Task,
        /// Whether it is planned alone.
        is_dry: bool,
    },
    /// One index of all packs in the place of all that there are.
    Repair,
    /// Marks for the packs that no snapshot needs.
    Mark,
    /// To drop the packs whose marks have waited so many seconds.
    Sweep(u64),
    /// The one and then the other.
    Prune(u64),
}

/// Why no deed is made of a command that is to change something.
#[derive(Clone, Copy, Debug, PartialEq, Eq)]
pub enum NoDeed {
    /// It names a snapshot, and which that is wasn't given.
    Unnamed,
    /// Memory ran out.
    Memory,
}

impl From<AllocError> for NoDeed {
    ghost from_gives = { λ _ error. error ≡ Memory };

    fn from(_error: AllocError) -> NoDeed {
        NoDeed::Memory
    }
}

impl<T: Drop> From<AllocFailed<T>> for NoDeed {
    ghost from_gives = { λ _ error. error ≡ Memory };

    fn from(_error: AllocFailed<T>) -> NoDeed {
        NoDeed::Memory
    }
}
