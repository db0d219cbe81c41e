use keep_catalog::ReachError;
use keep_putting::PutError;
use keep_read::RestoreError;
use std::alloc::AllocError;
use std::fmt;

/// Why a snapshot isn't put back. It prints as one line without its end: what it is, and what to do then.
#[derive(Clone, Copy, Debug, PartialEq, Eq)]
pub enum NotRestored {
    /// The snapshot can't be had whole. Nothing was done.
    Snapshot(RestoreError),
    /// The folder can't be written as a new one.
    Put(PutError),
}

impl fmt::Display for NotRestored {
    ghost use Rattle.std.specs.Prelude.{Some};
    ghost use Rattle.keep_restores.specs.Words.{not_restored_text};

    ghost output = { λ why. Some (not_restored_text why) };

    fn fmt<W: fmt::Write>(&self, f: &mut fmt::Formatter<W>) -> fmt::Result {
        match self {
            NotRestored::Snapshot(RestoreError::NoSnapshot) => {
                f.write_str("there is no such snapshot: keep snapshots lists them")
            }
            NotRestored::Snapshot(RestoreError::Reach(ReachError::Memory)) => {
                f.write_str("no memory: run it with more")
            }
            NotRestored::Snapshot(why) => {
                write!(
                    f,
                    "the snapshot isn't whole, {why}: keep check lists what is wrong"
                )
            }
            NotRestored::Put(PutError::NotEmpty) => {
                f.write_str("something is in the folder: name a new one")
            }
            NotRestored::Put(PutError::Memory) => f.write_str("no memory: run it with more"),
        }
    }
}

impl From<RestoreError> for NotRestored {
    ghost use Rattle.std.specs.Prelude.{◌≡◌};
    ghost use Rattle.keep_restores.specs.declared.not_restored.NotRestored.TheVariants.{Snapshot};

    ghost from_gives = { λ why error. error ≡ Snapshot why };

    fn from(why: RestoreError) -> NotRestored {
        NotRestored::Snapshot(why)
    }
}

impl From<PutError> for NotRestored {
    ghost use Rattle.std.specs.Prelude.{◌≡◌};
    ghost use Rattle.keep_restores.specs.declared.not_restored.NotRestored.TheVariants.{Put};

    ghost from_gives = { λ why error. error ≡ Put why };

    fn from(why: PutError) -> NotRestored {
        NotRestored::Put(why)
    }
}

impl From<AllocError> for NotRestored {
    ghost use Rattle.std.specs.Prelude.{◌≡◌};
    ghost use Rattle.keep_putting.specs.declared.restored.PutError.TheVariants.{Memory};
    ghost use Rattle.keep_restores.specs.declared.not_restored.NotRestored.TheVariants.{Put};

    ghost from_gives = { λ _ error. error ≡ Put Memory };

    fn from(_error: AllocError) -> NotRestored {
        NotRestored::Put(PutError::Memory)
    }
}
