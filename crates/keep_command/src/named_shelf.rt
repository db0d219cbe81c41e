use crate::shelves::Shelves;
use crate::unopened::Unopened;
use keep_book::Book;
use keep_folder::{FolderError, FolderShelf, HostTree, open_folder};
use keep_hashing::Hashing;
use keep_rope::Rope;
use keep_shelf::{Fault, Key, MemoryShelf, Shelf};
use std::mem;

/// The shelf that a script is answered over: in memory, or a folder.
#[derive(Drop)]
pub enum NamedShelf<'a> {
    Memory(MemoryShelf),
    Folder(FolderShelf<HostTree<'a>>),
}

/// The shelves that the program's options name: folders on this machine's disks, or in memory. What an opening has hashed
/// is hashed by this.
#[derive(Clone, Copy)]
pub struct HostShelves<'a, H> {
    rt: &'a HostRuntime,
    hashing: H,
}

impl<'a, H: Hashing + Copy> HostShelves<'a, H> {
    pub fn new(rt: &'a HostRuntime, hashing: H) -> HostShelves<'a, H> {
        HostShelves { rt, hashing }
    }
}

impl<H: Hashing + Copy> Shelves for HostShelves<'_, H> {
    ghost use Rattle.keep_command.specs.NamedShelf.{IsHad};

    ghost gives = { λ _ folder result. IsHad folder result };

    ghost takes = { λ _ _. Unit {0} };

    type Hashes = H;

    fn hashing(&self) -> H {
        self.hashing
    }

    fn open<'s>(&'s self, folder: Option<&str>) -> Result<NamedShelf<'s>, FolderError> {
        match folder {
            None => Ok(NamedShelf::Memory(MemoryShelf::new(self.rt.alloc()))),
            Some(path) => Ok(NamedShelf::Folder(open_folder(self.rt, path)?)),
        }
    }

    /// What is in memory alone is left to the system, which takes it back at once when the program ends: giving it back
    /// block by block takes a tenth of a long run.
    fn leave<T: Shelf>(&self, folder: Option<&str>, book: Book<T>) {
        match folder {
            Some(_) => drop(book),
            None => mem::forget(book),
        }
    }

    fn leave_unopened<T: Shelf>(&self, unopened: Unopened<T>) {
        drop(unopened);
    }
}

/// Each call goes to the shelf that it is.
impl Shelf for NamedShelf<'_> {
    ghost use Rattle.keep_command.specs.NamedShelf.{shelved_of};

    ghost shelved = { shelved_of };

    fn read(&mut self, key: Key) -> Result<Option<Rope>, Fault> {
        match self {
            NamedShelf::Memory(shelf) => shelf.read(key),
            NamedShelf::Folder(shelf) => shelf.read(key),
        }
    }

    fn write(&mut self, key: Key, bytes: &Rope) -> Result<(), Fault> {
        match self {
            NamedShelf::Memory(shelf) => shelf.write(key, bytes),
            NamedShelf::Folder(shelf) => shelf.write(key, bytes),
        }
    }

    fn shift(&mut self, from: Key, to: Key) -> Result<(), Fault> {
        match self {
            NamedShelf::Memory(shelf) => shelf.shift(from, to),
            NamedShelf::Folder(shelf) => shelf.shift(from, to),
        }
    }

    fn erase(&mut self, key: Key) -> Result<(), Fault> {
        match self {
            NamedShelf::Memory(shelf) => shelf.erase(key),
            NamedShelf::Folder(shelf) => shelf.erase(key),
        }
    }

    fn list(&mut self) -> Result<Vec<Key>, Fault> {
        match self {
            NamedShelf::Memory(shelf) => shelf.list(),
            NamedShelf::Folder(shelf) => shelf.list(),
        }
    }

    fn is_sure(&self) -> bool {
        match self {
            NamedShelf::Memory(shelf) => shelf.is_sure(),
            NamedShelf::Folder(shelf) => shelf.is_sure(),
        }
    }
}
