use crate::advice::folder_advice;
use keep_disk::FolderError;
use keep_opening::OpenError;
use std::fmt;

/// What to do where what stands on a shelf can't be read.
const COPY: &str = "put journal, trash and files back from one copy";

/// Why a repository's folder isn't opened. It prints as what is wrong, and what to do then.
#[derive(Drop)]
pub enum Unopened {
    /// The folder isn't read.
    Folder(FolderError),
    /// What stands there isn't read.
    Unread(OpenError),
    /// What stands there can't be read from the event of this number on, for this cause, each thing behind a semicolon.
    Damaged(u64, String),
}

impl fmt::Display for Unopened {
    ghost use Rattle.std.specs.Prelude.{Some};
    ghost use Rattle.keep_openings.specs.Unopened.{unopened_text};

    ghost output = { λ cause. Some (unopened_text cause) };

    fn fmt<W: fmt::Write>(&self, f: &mut fmt::Formatter<W>) -> fmt::Result {
        match self {
            Unopened::Folder(FolderError::BadConfig) => f.write_str(
                "it has no config of a repository: name another folder, or make one with keep init",
            ),
            Unopened::Folder(FolderError::Locked) => {
                f.write_str("another run has it: wait for its end, or longer with --wait")
            }
            Unopened::Folder(FolderError::Fault(cause)) => {
                write!(f, "{cause}: {}", folder_advice(*cause))
            }
            Unopened::Folder(FolderError::Memory) => f.write_str("no memory: run it with more"),
            Unopened::Unread(OpenError::BadEntry(number)) => {
                write!(f, "can't be read: event {number}; {COPY}")
            }
            Unopened::Unread(OpenError::Fault) => {
                f.write_str("it failed: make room, and see that all in it can be read and written")
            }
            Unopened::Unread(OpenError::Memory) => f.write_str("no memory: run it with more"),
            Unopened::Damaged(number, damage) => {
                write!(f, "can't be read: event {number}{damage}; {COPY}")
            }
        }
    }
}
