ghost use Rattle.std.specs.Prelude.{◌≡◌, [], Err, IfOk, IsTrue};
ghost use Rattle.keep_disk.specs.declared.folder_error.Cause.TheVariants as the_cause;
ghost use Rattle.keep_disk.specs.declared.folder_error.FolderError.TheVariants as the_error;
ghost use Rattle.keep_shelf.specs.Shelved.{stocked};

use crate::host::HostTree;
use crate::run::name_of_run;
use crate::shelf::FolderShelf;
use keep_disk::{Cause, DiskTree, FolderError};

/// Opens a folder on a disk as a shelf, as `DiskTree::open` does: it is locked, and then all that lies under keys there
/// is read.
pub fn open_folder<'a>(
    rt: &'a HostRuntime,
    root: &str,
) -> Result<FolderShelf<HostTree<'a>>, FolderError>
    ensures opened { IfOk result (λ shelf. shelf.shelved ≡ stocked shelf.shelved.content) }
    ensures told { IfOk result (λ shelf. IsTrue shelf.is_sure) }
    ensures named { root.now ≡ [] → result ≡ Err (the_error.Fault the_cause.Missing) }
{
    if root.is_empty() {
        return Err(FolderError::Fault(Cause::Missing));
    }
    let tmp = name_of_run(rt)?;
    let tree = match DiskTree::open(rt, root) {
        Ok(tree) => HostTree { tree },
        Err(given) => return Err(given.error),
    };
    match FolderShelf::open(rt.alloc(), tree, tmp) {
        Ok(shelf) => Ok(shelf),
        Err(_) => Err(FolderError::Memory),
    }
}
