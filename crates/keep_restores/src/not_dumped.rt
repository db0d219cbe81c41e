use keep_catalog::ReachError;
use keep_read::RestoreError;
use std::alloc::AllocError;
use std::fmt;

/// Why a file isn't written out. It prints as one line without its end: what it is, and what to do then.
#[derive(Clone, Copy, Debug, PartialEq, Eq)]
pub enum NotDumped {
    /// What the snapshot has can't be told.
    Snapshot(RestoreError),
    /// The snapshot has nothing at the path.
    NoPath,
    /// A folder is there.
    Folder,
    /// It is neither a file nor a folder, as a link.
    Other,
    /// The first piece of the file that can't be had, and why.
    Lost(ReachError),
    /// A write failed. The first bytes may be written.
    WriteFailed,
    /// Memory ran out.
    Memory,
}

impl fmt::Display for NotDumped {
    ghost use Rattle.std.specs.Prelude.{Some};
    ghost use Rattle.keep_restores.specs.Words.{not_dumped_text};

    ghost output = { λ why. Some (not_dumped_text why) };

    fn fmt<W: fmt::Write>(&self, f: &mut fmt::Formatter<W>) -> fmt::Result {
        match self {
            NotDumped::Snapshot(RestoreError::NoSnapshot) => {
                f.write_str("there is no such snapshot: keep snapshots lists them")
            }
            NotDumped::Snapshot(why) => {
                write!(
                    f,
                    "the snapshot can't be read, {why}: keep check lists what is wrong"
                )
            }
            NotDumped::NoPath => {
                f.write_str("the snapshot has nothing at the path: keep ls lists what it has")
            }
            NotDumped::Folder => {
                f.write_str("a folder is at the path: name a file, or restore the folder")
            }
            NotDumped::Other => f.write_str("what is at the path has no bytes: name a file"),
            NotDumped::Lost(why) => {
                write!(
                    f,
                    "the file isn't whole, {why}: keep check lists what is wrong"
                )
            }
            NotDumped::WriteFailed => {
                f.write_str("a write failed: make room, and see that it can be written")
            }
            NotDumped::Memory => f.write_str("no memory: run it with more"),
        }
    }
}

impl From<AllocError> for NotDumped {
    ghost use Rattle.std.specs.Prelude.{◌≡◌};
    ghost use Rattle.keep_restores.specs.declared.not_dumped.NotDumped.TheVariants.{Memory};

    ghost from_gives = { λ _ error. error ≡ Memory };

    fn from(_error: AllocError) -> NotDumped {
        NotDumped::Memory
    }
}

impl From<RestoreError> for NotDumped {
    ghost use Rattle.std.specs.Prelude.{◌≡◌};
    ghost use Rattle.keep_restores.specs.Dumping.{unlisted};

    ghost from_gives = { λ why error. error ≡ unlisted why };

    fn from(why: RestoreError) -> NotDumped {
        match why {
            RestoreError::Reach(ReachError::Memory) => NotDumped::Memory,
            _ => NotDumped::Snapshot(why),
        }
    }
}

impl From<ReachError> for NotDumped {
    ghost use Rattle.std.specs.Prelude.{◌≡◌};
    ghost use Rattle.keep_restores.specs.Dumping.{lost};

    ghost from_gives = { λ why error. error ≡ lost why };

    fn from(why: ReachError) -> NotDumped {
        match why {
            ReachError::Memory => NotDumped::Memory,
            _ => NotDumped::Lost(why),
        }
    }
}
