use crate::named_shelf::NamedShelf;
use crate::unopened::Unopened;
use keep_book::Book;
use keep_folder::FolderError;
use keep_hashing::Hashing;
use keep_shelf::Shelf;

/// Where the shelves of runs come from, and where what runs leave goes.
pub trait Shelves {
    ghost use Rattle.std.specs.Prelude.{ℕ, List, Option, Result, option_map};
    ghost use Rattle.keep_book.specs.Armed.{hooks_of, on_shelf};
    ghost use Rattle.keep_disk.specs.declared.folder_error.FolderError.{FolderError};
    ghost use Rattle.keep_command.specs.Left.{LeftBook, LeftData, LeftShelf};
    ghost use Rattle.keep_command.specs.declared.named_shelf.NamedShelf.{NamedShelf};

    /// Whether this was had of the folder of this name, or, where none is named, of memory.
    ghost gives: { Self → Option (List ℕ) → Result NamedShelf FolderError → Type 0 };

    /// Whether this was let go.
    ghost takes: { Self → LeftData → Type 0 };

    /// Who hashes what an opening and the lines have hashed.
    type Hashes: Hashing + Copy;

    /// Hands in who hashes.
    fn hashing(&self) -> Self::Hashes;

    /// The shelf in the folder. Where none is named it has nothing on it, and goes with the run.
    fn open<'s>(&'s self, folder: Option<&str>) -> Result<NamedShelf<'s>, FolderError>
        ensures { gives self.now (option_map (λ name. name.now) folder.entry) result };

    /// Lets go of the book that a run leaves. There is nothing left to do with it, and nothing can be done: each call that
    /// changes a book requires sums that aren't promised here.
    fn leave<T: Shelf>(&self, folder: Option<&str>, book: Book<T>)
        ensures { takes self.now (LeftBook (on_shelf book) (hooks_of book)) };

    /// Lets go of a shelf that wasn't opened.
    fn leave_unopened<T: Shelf>(&self, unopened: Unopened<T>)
        ensures { takes self.now (LeftShelf (T.shelved unopened.shelf)) };
}
