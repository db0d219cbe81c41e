use keep_disk::FolderError;
use keep_docs::{ConfigError, DocError};
use std::alloc::AllocError;
use std::io;

/// Why no repository was begun.
#[derive(Clone, Copy, Debug, PartialEq, Eq)]
pub enum BeginError {
    /// Something is in the folder. Nothing was done.
    NotEmpty,
    /// A call of the file system failed, or memory ran out. What was made until then is there, and doesn't open as a
    /// repository: its config comes last.
    Folder(FolderError),
}

impl From<io::Error> for BeginError {
    ghost use Rattle.std.specs.Prelude.{◌≡◌};
    ghost use Rattle.keep_disk.specs.Ends.{end_of};
    ghost use Rattle.keep_folder.specs.declared.begin_error.BeginError.TheVariants.{Folder};

    ghost from_gives = { λ error why. why ≡ Folder (end_of error) };

    fn from(error: io::Error) -> BeginError {
        BeginError::Folder(FolderError::from(error))
    }
}

impl From<ConfigError> for BeginError {
    ghost use Rattle.std.specs.Prelude.{◌≡◌};
    ghost use Rattle.keep_folder.specs.Config.{end_of_config};
    ghost use Rattle.keep_folder.specs.declared.begin_error.BeginError.TheVariants.{Folder};

    ghost from_gives = { λ error why. why ≡ Folder (end_of_config error) };

    fn from(error: ConfigError) -> BeginError {
        match error {
            ConfigError::Doc(DocError::Memory) => BeginError::Folder(FolderError::Memory),
            _ => BeginError::Folder(FolderError::BadConfig),
        }
    }
}

impl From<AllocError> for BeginError {
    ghost use Rattle.std.specs.Prelude.{◌≡◌};
    ghost use Rattle.keep_folder.specs.declared.begin_error.BeginError.TheVariants.{Folder};
    ghost use Rattle.keep_disk.specs.declared.folder_error.FolderError.TheVariants.{Memory};

    ghost from_gives = { λ _ error. error ≡ Folder Memory };

    fn from(_error: AllocError) -> BeginError {
        BeginError::Folder(FolderError::Memory)
    }
}
