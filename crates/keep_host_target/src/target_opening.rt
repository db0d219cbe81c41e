ghost use Rattle.std.specs.Prelude.{◌≡◌, [], IfOk};
ghost use Rattle.keep_noted_target.specs.Noted.{calls_in};

use crate::refusals::refusal_of;
use crate::store::{HostStore, make_dir};
use keep_noted_target::NotedTarget;
use keep_targets::TargetError;
use std::alloc::Global;
use std::fs::{File, Files};
use std::io::ErrorKind;
use std::{fs, io};

/// The folder of this path as a target. Where nothing is there it is made, its owner's alone; folders above it aren't.
/// Where something is in it already, it can still be opened, and a restore into it is then refused.
pub fn open_target<R: Files<File = File> + Alloc<A = Global> + Clone + Drop>(
    rt: R,
    root: &str,
) -> Result<NotedTarget<HostStore<R>>, TargetError>
    ensures { IfOk result (λ target. calls_in target ≡ []) }
{
    let alloc = rt.alloc();
    let is_new = match begin(&rt, root) {
        Ok(is_new) => is_new,
        Err(error) => return Err(refusal_of(&error)),
    };
    let Ok(root) = String::from_str(alloc, root) else {
        return Err(TargetError::Memory);
    };
    Ok(NotedTarget::new(alloc, HostStore::new(rt, root), is_new))
}

/// Makes the folder where nothing is, and tells whether nothing is in it.
fn begin<R: Files<File = File> + Alloc<A = Global> + Clone + Drop>(
    rt: &R,
    root: &str,
) -> io::Result<bool> {
    if root.is_empty() {
        return Err(io::Error::from(ErrorKind::InvalidInput));
    }
    match make_dir(rt, root) {
        Ok(()) => Ok(true),
        Err(error) if error.kind() == ErrorKind::AlreadyExists => is_empty(rt, root),
        Err(error) => Err(error),
    }
}

/// Whether nothing is in the folder. A name that isn't UTF-8 is something.
fn is_empty<R: Files<File = File> + Alloc<A = Global> + Clone + Drop>(
    rt: &R,
    root: &str,
) -> io::Result<bool> {
    for entry in fs::read_dir(rt, root)? {
        return match entry {
            Ok(_) => Ok(false),
            Err(error) if error.kind() == ErrorKind::InvalidFilename => Ok(false),
            Err(error) => Err(error),
        };
    }
    Ok(true)
}
