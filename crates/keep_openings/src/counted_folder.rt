ghost use Rattle.std.specs.Prelude.{◌≡◌, IfOk, IsTrue};
ghost use Rattle.keep_shelf.specs.Shelved.{stocked};

use crate::counted_tree::CountedTree;
use keep_disk::{DiskTree, FolderError};
use keep_folder::{FolderShelf, name_of_run};
use keep_progress::CountedFiles;
use std::time::Clock;

/// Opens a folder of the machine as a shelf, as `keep_folder::open_folder` does. The files there are counted from nothing
/// as they are read, and that count goes on until it is ended.
pub fn open_counted<'a>(
    rt: &HostRuntime,
    files: &CountedFiles<'a>,
    root: &str,
) -> Result<FolderShelf<CountedTree<'a>>, FolderError>
    ensures opened { IfOk result (λ shelf. shelf.shelved ≡ stocked shelf.shelved.content) }
    ensures told { IfOk result (λ shelf. IsTrue shelf.is_sure) }
{
    let tmp = name_of_run(rt)?;
    let files = files.clone()?;
    files.begin("open");
    let tree = match DiskTree::open(files, root) {
        Ok(tree) => CountedTree { tree },
        Err(given) => return Err(given.error),
    };
    match FolderShelf::open(rt.alloc(), tree, tmp) {
        Ok(shelf) => Ok(shelf),
        Err(_) => Err(FolderError::Memory),
    }
}
