use crate::begin_error::BeginError;
use crate::new_config::config_bytes;
use keep_names::Id;
use std::alloc::Global;
use std::fs::{DirBuilder, File, Files, OpenOptions};
use std::io::{ErrorKind, Write};
use std::os::unix::fs::{DirBuilderExt, OpenOptionsExt};
use std::random::RandomSource;
use std::{fs, io};

/// A file of a repository is its owner's alone, and so is a folder: it has what was backed up in plain bytes.
const FILE_MODE: u32 = 0o600;

const FOLDER_MODE: u32 = 0o700;

/// The folders of a repository.
const FOLDERS: [&str; 5] = ["data", "index", "snapshots", "trash", "journal"];

/// Begins a repository in a folder, and answers its id, which is of the system's random bytes. The folder is made where
/// nothing is; what is there has to be an empty folder. Folders above it aren't made.
///
/// The config comes last, and its bytes and all names outlast a loss of power once this answers. So where the program
/// stops before the end there is no config, or a part of one, and the folder doesn't open as a repository.
pub fn begin<R: Files<File = File> + Alloc<A = Global> + RandomSource + Clone + Drop>(
    rt: &R,
    root: &str,
) -> Result<Id, BeginError> {
    require_empty(rt, root)?;
    let mut id = Id([0u8; 32]);
    rt.fill_bytes(&mut id.0)?;
    let config = config_bytes(rt.alloc(), id)?;
    for name in FOLDERS {
        let path = format!(in rt.alloc(); "{root}/{name}")?;
        make_dir(rt, path.as_str())?;
    }
    sync_folder(rt, root)?;
    let path = format!(in rt.alloc(); "{root}/config")?;
    write_new(rt, path.as_str(), config.as_bytes())?;
    sync_folder(rt, root)?;
    Ok(id)
}

/// Makes the folder, or sees that nothing is in it. A name that isn't UTF-8 is something.
fn require_empty<R: Files<File = File> + Alloc<A = Global> + Clone + Drop>(
    rt: &R,
    root: &str,
) -> Result<(), BeginError> {
    if root.is_empty() {
        return Err(BeginError::from(io::Error::from(ErrorKind::NotFound)));
    }
    match make_dir(rt, root) {
        Ok(()) => return Ok(()),
        Err(error) if error.kind() == ErrorKind::AlreadyExists => {}
        Err(error) => return Err(BeginError::from(error)),
    }
    for entry in fs::read_dir(rt, root)? {
        return match entry {
            Ok(_) => Err(BeginError::NotEmpty),
            Err(error) if error.kind() == ErrorKind::InvalidFilename => Err(BeginError::NotEmpty),
            Err(error) => Err(BeginError::from(error)),
        };
    }
    Ok(())
}

fn make_dir<R: Files>(rt: &R, path: &str) -> io::Result<()> {
    DirBuilder::new().mode(FOLDER_MODE).create(rt, path)
}

fn write_new<R: Files<File = File>>(rt: &R, path: &str, bytes: &[u8]) -> io::Result<()> {
    let mut file = OpenOptions::new()
        .write(true)
        .create_new(true)
        .mode(FILE_MODE)
        .open(rt, path)?;
    file.write_all(bytes)?;
    file.sync_all()
}

/// Has a folder's names outlast a loss of power. A file system that says that it has no such act is left to its own.
fn sync_folder<R: Files<File = File>>(rt: &R, path: &str) -> io::Result<()> {
    match File::open(rt, path)?.sync_all() {
        Ok(()) => Ok(()),
        Err(error) if is_unknown(error.kind()) => Ok(()),
        Err(error) => Err(error),
    }
}

fn is_unknown(kind: ErrorKind) -> bool {
    matches!(kind, ErrorKind::InvalidInput | ErrorKind::Unsupported)
}
