ghost use Rattle.std.specs.Prelude.{◌≡◌, Err, IsOk, OnOk};
ghost use Rattle.std.specs.declared.io.Error.{Error};
ghost use Rattle.keep_disk.specs.Ends.{end_of};
ghost use Rattle.keep_disk.specs.declared.folder_error.FolderError.TheVariants as the_error;

use crate::disk_reading::require_file;
use crate::folder_error::FolderError;
use crate::private::make_file;
use crate::sight::is_at;
use std::alloc::Global;
use std::fs::{File, Files, OpenOptions, TryLockError};
use std::io;
use std::io::ErrorKind;

/// How often at most the file of the lock is opened. It is opened again where another one lies in its place by then.
const MAX_OPENINGS: u32 = 16;

/// A lock on a folder against all others that lock it. It lasts as long as its file is open, and the system lets it go
/// where the program ends, however it ends.
#[derive(Drop)]
pub(crate) struct Lock {
    path: String,
    /// The file `lock`. On a medium that can't be written it may not be there, and need not be.
    file: Option<File>,
    /// Whether the folder may be changed: the medium can be written, and the lock was this run's at each act so far.
    is_writable: bool,
}

impl Lock {
    /// Locks the folder.
    pub(crate) fn lock_folder<R: Files<File = File> + Alloc<A = Global>>(
        rt: &R,
        root: &str,
    ) -> Result<Lock, FolderError> {
        let path = format!(in rt.alloc(); "{root}/lock")?;
        for _ in 0..MAX_OPENINGS {
            match open_lock(rt, path.as_str()) {
                Ok(file) => {
                    lock_file(&file)?;
                    if is_in_place(rt, &file, path.as_str())? {
                        return Ok(Lock {
                            path,
                            file: Some(file),
                            is_writable: true,
                        });
                    }
                }
                Err(error) if error.kind() == ErrorKind::ReadOnlyFilesystem => {
                    return Lock::lock_unwritable(rt, path);
                }
                Err(error) => return Err(FolderError::from(error)),
            }
        }
        Err(FolderError::Locked)
    }

    /// The lock on a folder that can't be changed: it has to be free, where there is one.
    fn lock_unwritable<R: Files<File = File>>(rt: &R, path: String) -> Result<Lock, FolderError> {
        let file = File::open(rt, path.as_str()).ok();
        if let Some(file) = &file {
            if let Err(TryLockError::WouldBlock) = file.try_lock() {
                return Err(FolderError::Locked);
            }
        }
        Ok(Lock {
            path,
            file,
            is_writable: false,
        })
    }

    /// Asks for the lock again, before an act. A network that was cut may have taken it away, and somebody may have put
    /// another file in its place. Then no act is done any more.
    pub(crate) fn is_held<R: Files<File = File>>(&mut self, rt: &R) -> bool {
        let is_held = match &self.file {
            Some(file) => lock_file(file).is_ok()
                && is_in_place(rt, file, self.path.as_str()).is_ok_and(|same| same),
            None => false,
        };
        self.is_writable = self.is_writable && is_held;
        self.is_writable
    }
}

fn lock_file(file: &File) -> Result<(), FolderError> {
    judge_lock(file.try_lock())
}

/// What the try of a lock comes to. Where there are no locks nothing is locked.
fn judge_lock(tried: Result<(), TryLockError>) -> Result<(), FolderError>
    ensures locked { OnOk result (IsOk tried) }
    ensures held { tried ≡ Err TryLockError.WouldBlock → result ≡ Err the_error.Locked }
    ensures failed { (error : Error) → tried ≡ Err (TryLockError.Error error) → result ≡ Err (end_of error) }
{
    match tried {
        Ok(()) => Ok(()),
        Err(TryLockError::WouldBlock) => Err(FolderError::Locked),
        Err(TryLockError::Error(error)) => Err(FolderError::from(error)),
    }
}

/// Whether the file that lies at the path is this one.
fn is_in_place<R: Files>(rt: &R, file: &File, path: &str) -> io::Result<bool> {
    let held = file.metadata()?;
    is_at(rt, &held, path)
}

/// The file that is locked, which is made where it isn't there, and is never written to. It is opened for writing since
/// some file systems lock no other.
fn open_lock<R: Files<File = File>>(rt: &R, path: &str) -> io::Result<File> {
    match make_file(rt, path) {
        Err(error) if error.kind() == ErrorKind::AlreadyExists => {
            require_file(rt, path)?;
            OpenOptions::new().read(true).write(true).open(rt, path)
        }
        made => made,
    }
}
