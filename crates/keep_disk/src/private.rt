use std::fs::{DirBuilder, File, Files, OpenOptions};
use std::io;
use std::os::unix::fs::{DirBuilderExt, OpenOptionsExt};

/// A file of a repository is its owner's alone, to read and to write: it has what was backed up in plain bytes.
const FILE_MODE: u32 = 0o600;

/// And a folder its owner's alone, to go through too.
const FOLDER_MODE: u32 = 0o700;

/// Makes a file where nothing is, whatever the umask leaves to others.
pub(crate) fn make_file<R: Files<File = File>>(rt: &R, path: &str) -> io::Result<File> {
    OpenOptions::new()
        .read(true)
        .write(true)
        .create_new(true)
        .mode(FILE_MODE)
        .open(rt, path)
}

/// Makes a folder where nothing is, whatever the umask leaves to others.
pub(crate) fn make_dir<R: Files>(rt: &R, path: &str) -> io::Result<()> {
    DirBuilder::new().mode(FOLDER_MODE).create(rt, path)
}
