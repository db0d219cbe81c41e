use std::alloc::AllocError;
use std::{fmt, io};

/// Why a folder isn't opened.
#[derive(Clone, Copy, Debug, PartialEq, Eq)]
pub enum FolderError {
    /// It can be listed, and there is no file `config` in it, or one that isn't of a repository.
    BadConfig,
    /// Another run has the folder.
    Locked,
    /// It can't be read, or something in it isn't as it has to be.
    Fault(Cause),
    /// Memory ran out.
    Memory,
}

/// What the system said of a folder that can't be read.
#[derive(Clone, Copy, Debug, PartialEq, Eq)]
pub enum Cause {
    /// Something that has to be there isn't.
    Missing,
    /// A permission is wanting.
    Denied,
    /// Something of another sort lies where a file or a folder has to.
    OtherSort,
    /// A server or a mount doesn't answer.
    Away,
    /// All else.
    Failed,
}

impl fmt::Display for Cause {
    ghost use Rattle.std.specs.Prelude.{Some};
    ghost use Rattle.keep_disk.specs.Ends.{cause_text};

    ghost output = { λ cause. Some (cause_text cause) };

    fn fmt<W: fmt::Write>(&self, f: &mut fmt::Formatter<W>) -> fmt::Result {
        f.write_str(match self {
            Cause::Missing => "no such file or folder",
            Cause::Denied => "permission denied",
            Cause::OtherSort => "another sort of thing where a file or a folder has to be",
            Cause::Away => "the file system doesn't answer",
            Cause::Failed => "the file system failed",
        })
    }
}

impl From<AllocError> for FolderError {
    ghost use Rattle.std.specs.Prelude.{◌≡◌};
    ghost use Rattle.keep_disk.specs.declared.folder_error.FolderError.TheVariants.{Memory};

    ghost from_gives = { λ _ error. error ≡ Memory };

    fn from(_error: AllocError) -> FolderError {
        FolderError::Memory
    }
}

impl From<io::Error> for FolderError {
    ghost use Rattle.std.specs.Prelude.{◌≡◌};
    ghost use Rattle.keep_disk.specs.Ends.{end_of};

    ghost from_gives = { λ error ends. ends ≡ end_of error };

    fn from(error: io::Error) -> FolderError {
        match error.kind() {
            io::ErrorKind::OutOfMemory => FolderError::Memory,
            io::ErrorKind::NotFound => FolderError::Fault(Cause::Missing),
            io::ErrorKind::PermissionDenied => FolderError::Fault(Cause::Denied),
            io::ErrorKind::NotADirectory => FolderError::Fault(Cause::OtherSort),
            io::ErrorKind::IsADirectory => FolderError::Fault(Cause::OtherSort),
            io::ErrorKind::InvalidInput => FolderError::Fault(Cause::OtherSort),
            io::ErrorKind::NotConnected => FolderError::Fault(Cause::Away),
            io::ErrorKind::StaleNetworkFileHandle => FolderError::Fault(Cause::Away),
            io::ErrorKind::HostUnreachable => FolderError::Fault(Cause::Away),
            io::ErrorKind::TimedOut => FolderError::Fault(Cause::Away),
            _ => FolderError::Fault(Cause::Failed),
        }
    }
}
