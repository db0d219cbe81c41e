//! What can be handed to another thread: a book, where its shelf can.

ghost use Rattle.std.specs.Prelude.{◌≡◌};

use keep_book::Book;
use keep_shelf::Shelf;

/// A book can be handed to another thread where its shelf can. It is the same there.
pub fn books_cross_threads<S: Shelf + Send>(book: Book<S>) -> Book<S>
    ensures { result ≡ book }
{
    handed(book)
}

fn handed<T: Send>(value: T) -> T
    ensures { result ≡ value }
{
    value
}
