use crate::refusals::{done_or_why, refusal_of};
use keep_noted_target::Store;
use keep_targets::{Instant, Owner, Short, TargetError, Times};
use std::alloc::{AllocError, Global};
use std::fs::{DirBuilder, File, FileTimes, Files, OpenOptions, Permissions};
use std::io;
use std::io::{ErrorKind, Write};
use std::os::unix::fs as unix;
use std::os::unix::fs::{DirBuilderExt, OpenOptionsExt, PermissionsExt};
use std::time::{Duration, SystemTime, UNIX_EPOCH};

/// Until its mode is set, a file is its owner's alone, to read and to write.
const FILE_MODE: u32 = 0o600;

/// And a folder its owner's alone, to go through too.
const FOLDER_MODE: u32 = 0o700;

/// How often at most a write is tried again that was interrupted or wrote a part.
const MAX_TURNS: u32 = 67_108_864;

/// The files below a folder of the system. Four sentences of it are trusted:
///
/// - a call of the file system that is answered without an error did what its name says, and one that is answered by an
///   error did nothing;
/// - a file or folder is made only where nothing is, be it a link: so the system says of `O_EXCL` and `mkdir`;
/// - a write tells how many bytes it wrote;
/// - nobody else changes what lies there while this run writes.
#[derive(Drop)]
pub struct HostStore<R> {
    rt: R,
    root: String,
    /// What was made or set last, so that its mode takes away no right to set its times.
    open: Option<Opened>,
}

/// A file or folder that is open.
#[derive(Drop)]
struct Opened {
    path: String,
    file: File,
}

impl<R: Files<File = File> + Alloc<A = Global> + Clone + Drop> HostStore<R> {
    pub(crate) fn new(rt: R, root: String) -> HostStore<R> {
        HostStore {
            rt,
            root,
            open: None,
        }
    }

    fn below_root(&self, path: &str) -> Result<String, AllocError> {
        format!(in self.rt.alloc(); "{}{path}", self.root)
    }

    fn try_make_file(&mut self, path: &str) -> io::Result<()> {
        let place = self.below_root(path)?;
        let path = String::from_str(self.rt.alloc(), path)?;
        let file = OpenOptions::new()
            .write(true)
            .create_new(true)
            .mode(FILE_MODE)
            .open(&self.rt, place.as_str())?;
        self.open = Some(Opened { path, file });
        Ok(())
    }

    fn try_make_folder(&self, path: &str) -> io::Result<()> {
        let place = self.below_root(path)?;
        make_dir(&self.rt, place.as_str())
    }

    fn try_make_link(&self, path: &str, to: &str) -> io::Result<()> {
        let place = self.below_root(path)?;
        unix::symlink(&self.rt, to, place.as_str())
    }

    fn try_set_owner(&self, path: &str, owner: Owner) -> io::Result<()> {
        let place = self.below_root(path)?;
        unix::lchown(&self.rt, place.as_str(), Some(owner.uid), Some(owner.gid))
    }

    fn try_set_mode(&mut self, path: &str, mode: u32) -> io::Result<()> {
        self.opened(path)?
            .set_permissions(Permissions::from_mode(mode))
    }

    fn try_set_times(&mut self, path: &str, times: Times) -> io::Result<()> {
        let accessed = system_time(times.accessed)?;
        let modified = system_time(times.modified)?;
        let times = FileTimes::new()
            .set_accessed(accessed)
            .set_modified(modified);
        self.opened(path)?.set_times(times)
    }

    /// What lies at the path, open: it is what was made or set last, or it is opened now.
    fn opened(&mut self, path: &str) -> io::Result<&File> {
        if !self.is_open(path) {
            let place = self.below_root(path)?;
            let path = String::from_str(self.rt.alloc(), path)?;
            let file = File::open(&self.rt, place.as_str())?;
            self.open = Some(Opened { path, file });
        }
        match &self.open {
            Some(opened) => Ok(&opened.file),
            None => Err(io::Error::from(ErrorKind::NotFound)),
        }
    }

    fn is_open(&self, path: &str) -> bool {
        match &self.open {
            Some(opened) => opened.path.as_str() == path,
            None => false,
        }
    }
}

impl<R: Files<File = File> + Alloc<A = Global> + Clone + Drop> Store for HostStore<R> {
    fn make_folder(&mut self, path: &str) -> Result<(), TargetError> {
        done_or_why(self.try_make_folder(path))
    }

    fn make_file(&mut self, path: &str) -> Result<(), TargetError> {
        done_or_why(self.try_make_file(path))
    }

    fn append(&mut self, path: &str, bytes: &[u8]) -> Result<(), Short> {
        match &mut self.open {
            Some(opened) if opened.path.as_str() == path => write_all(&mut opened.file, bytes),
            _ => Err(Short {
                written: 0,
                refusal: TargetError::Failed,
            }),
        }
    }

    fn make_link(&mut self, path: &str, to: &str) -> Result<(), TargetError> {
        done_or_why(self.try_make_link(path, to))
    }

    fn set_owner(&mut self, path: &str, owner: Owner) -> Result<(), TargetError> {
        done_or_why(self.try_set_owner(path, owner))
    }

    fn set_link_owner(&mut self, path: &str, owner: Owner) -> Result<(), TargetError> {
        done_or_why(self.try_set_owner(path, owner))
    }

    fn set_mode(&mut self, path: &str, mode: u32) -> Result<(), TargetError> {
        done_or_why(self.try_set_mode(path, mode))
    }

    fn set_times(&mut self, path: &str, times: Times) -> Result<(), TargetError> {
        done_or_why(self.try_set_times(path, times))
    }
}

/// Makes a folder where nothing is, whatever the umask leaves to others.
pub(crate) fn make_dir<R: Files>(rt: &R, path: &str) -> io::Result<()> {
    DirBuilder::new().mode(FOLDER_MODE).create(rt, path)
}

/// Writes these bytes, and tells how many were written where not all could be.
fn write_all<W: Write>(file: &mut W, bytes: &[u8]) -> Result<(), Short> {
    let mut rest = bytes;
    for _ in 0..MAX_TURNS {
        if rest.is_empty() {
            return Ok(());
        }
        match file.write(rest) {
            Ok(0) => return Err(short(bytes, rest, TargetError::Full)),
            Ok(count) => rest = rest.get(count..).unwrap_or(&[]),
            Err(error) if error.kind() == ErrorKind::Interrupted => {}
            Err(error) => return Err(short(bytes, rest, refusal_of(&error))),
        }
    }
    Err(short(bytes, rest, TargetError::Failed))
}

fn short(bytes: &[u8], rest: &[u8], refusal: TargetError) -> Short {
    let written = bytes.len().saturating_sub(rest.len()) as u64;
    Short { written, refusal }
}

/// The system's times begin with 1970 here.
fn system_time(instant: Instant) -> io::Result<SystemTime> {
    let Ok(seconds) = u64::try_from(instant.seconds) else {
        return Err(io::Error::from(ErrorKind::InvalidInput));
    };
    let nanoseconds = Duration::from_nanos(u64::from(instant.nanoseconds));
    let since_1970 = Duration::from_secs(seconds).saturating_add(nanoseconds);
    match UNIX_EPOCH.checked_add(since_1970) {
        Some(time) => Ok(time),
        None => Err(io::Error::from(ErrorKind::InvalidInput)),
    }
}
