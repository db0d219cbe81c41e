ghost use Rattle.std.specs.Prelude.{IfOk};
ghost use Rattle.keep_files.specs.Stands.{IsClosed};
ghost use Rattle.keep_disk.specs.Config.{HasConfig};
ghost use Rattle.keep_memory_files.specs.Memory.{seen_in};

use crate::disk::Disk;
use crate::disk_config::read_config_of;
use crate::disk_names::names_in;
use crate::disk_reading::PIECE;
use crate::disk_tree::DiskTree;
use crate::folder_error::{Cause, FolderError};
use crate::lock::Lock;
use crate::scan::Scan;
use keep_memory_files::MemoryTree;
use std::alloc::Global;
use std::fs::{File, Files};

/// A folder that isn't opened, and why. What it was to be read with is handed back.
#[derive(Drop)]
pub struct NotRead<R> {
    pub rt: R,
    pub error: FolderError,
}

impl<R: Files<File = File> + Alloc<A = Global> + Clone + Drop> DiskTree<R> {
    ghost use Rattle.std.specs.Prelude.{◌≡◌, [], IfErr, IfOk, IsErrAnd};
    ghost use Rattle.keep_files.specs.Stands.{IsClosed};
    ghost use Rattle.keep_disk.specs.Config.{HasConfig};
    ghost use Rattle.keep_memory_files.specs.Memory.{seen_in};
    ghost use Rattle.keep_disk.specs.declared.folder_error.FolderError.TheVariants as the_error;
    ghost use Rattle.keep_disk.specs.declared.folder_error.Cause.TheVariants as the_cause;

    /// Locks the folder, and then reads what lies below it where keys lie. What has no key's path is passed over.
    ///
    /// A folder that can't be listed is a `Fault`. Where it can, it has to hold the config of a repository, else it is
    /// `BadConfig`, and nothing is put there. `Locked` where another run has it. On a medium that can't be written it is
    /// opened all the same, and each act then fails.
    pub fn open(rt: R, root: &str) -> Result<DiskTree<R>, NotRead<R>>
        ensures config { IfOk result (λ tree. HasConfig (seen_in tree.image).stands) }
        ensures closed { IfOk result (λ tree. IsClosed (seen_in tree.image).stands) }
        ensures given { IfErr result (λ given. given.rt ≡ rt) }
        ensures named { root.now ≡ [] → IsErrAnd result (λ given. given.error ≡ the_error.Fault the_cause.Missing) }
    {
        if root.is_empty() {
            return Err(NotRead {
                rt,
                error: FolderError::Fault(Cause::Missing),
            });
        }
        match read_disk(&rt, root) {
            Ok((root, lock, image)) => Ok(DiskTree {
                disk: Disk::new(rt, root, lock),
                image,
            }),
            Err(error) => Err(NotRead { rt, error }),
        }
    }
}

/// The folder's path, the lock on it, and the image of it.
fn read_disk<R: Files<File = File> + Alloc<A = Global> + Clone + Drop>(
    rt: &R,
    root: &str,
) -> Result<(String, Lock, MemoryTree), FolderError>
    ensures config { IfOk result (λ read. HasConfig (seen_in read.2).stands) }
    ensures closed { IfOk result (λ read. IsClosed (seen_in read.2).stands) }
{
    let alloc = rt.alloc();
    let path = String::from_str(alloc, root)?;
    let mut piece = vec![in alloc; 0u8; PIECE]?;
    let _names = names_in(rt, root)?;
    let config = read_config_of(rt, root, piece.as_mut_slice())?;
    let lock = Lock::lock_folder(rt, root)?;
    let mut scan = Scan::new(rt, root, piece, lock);
    scan.read_all()?;
    let (lock, image) = scan.finish(config)?;
    Ok((path, lock, image))
}
