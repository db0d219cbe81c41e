use keep_files::TreeError;
use std::fs::{Files, Metadata};
use std::io::ErrorKind;
use std::os::unix::fs::MetadataExt;
use std::{fs, io};

/// What is at a path, be it a link.
#[derive(Clone, Copy, PartialEq, Eq)]
pub(crate) enum Sight {
    Nothing,
    Something,
    Folder,
    /// It can't be told.
    Unseen,
}

pub(crate) fn look<R: Files>(rt: &R, path: &str) -> Sight {
    match fs::symlink_metadata(rt, path) {
        Ok(found) if found.is_dir() => Sight::Folder,
        Ok(_) => Sight::Something,
        Err(error) if error.kind() == ErrorKind::NotFound => Sight::Nothing,
        Err(_) => Sight::Unseen,
    }
}

/// What became of a removal that was answered by an error: it is done where nothing is there.
pub(crate) fn after_removal(there: Sight) -> Result<(), TreeError> {
    match there {
        Sight::Nothing => Ok(()),
        Sight::Something | Sight::Folder => Err(TreeError::Broken),
        Sight::Unseen => Err(TreeError::Unknown),
    }
}

/// What became of a rename that was answered by an error: it isn't done where its source is still there, and it is
/// where that is gone and what it was is the target.
pub(crate) fn after_rename(source: Sight, is_target: bool) -> Result<(), TreeError> {
    match source {
        Sight::Something | Sight::Folder => Err(TreeError::Broken),
        Sight::Nothing if is_target => Ok(()),
        Sight::Nothing | Sight::Unseen => Err(TreeError::Unknown),
    }
}

/// What became of the making of a folder that was answered by an error: it is done where one is there.
pub(crate) fn after_making(there: Sight) -> Result<(), TreeError> {
    match there {
        Sight::Folder => Ok(()),
        Sight::Nothing | Sight::Something => Err(TreeError::Broken),
        Sight::Unseen => Err(TreeError::Unknown),
    }
}

/// What became of a new file that couldn't be written whole, and was removed again: nothing is left of it where nothing
/// is there.
pub(crate) fn after_writing(there: Sight) -> TreeError {
    match there {
        Sight::Nothing => TreeError::Broken,
        _ => TreeError::Unknown,
    }
}

/// Whether this is what lies at the path.
pub(crate) fn is_at<R: Files>(rt: &R, held: &Metadata, path: &str) -> io::Result<bool> {
    match fs::symlink_metadata(rt, path) {
        Ok(found) => Ok(found.dev() == held.dev() && found.ino() == held.ino()),
        Err(error) if error.kind() == ErrorKind::NotFound => Ok(false),
        Err(error) => Err(error),
    }
}
