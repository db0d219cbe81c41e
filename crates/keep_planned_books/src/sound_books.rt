ghost use Rattle.keep_planned_books.specs.SoundBooks.{BooksAreSound, BooksBeginSound, BooksStaySound, SelectionsOfBooksAreSound, ViewsKnow};

use keep_pages::accepted_requests_leave_open_ledgers;
use keep_sound::{
    commits_stay_sound, emptyings_stay_sound, filters_are_selections, selections_are_sound,
};
use keep_view::the_known_are_there_or_added;

/// A book without events is sound over a sound opening.
pub fn books_begin_sound()
    ensures { BooksBeginSound }
{}

/// A sound book stays so by any request, accepted or refused. Only a commit's change has to be safe for it: to undo, to
/// redo and to empty always is.
pub fn books_stay_sound()
    ensures { BooksStaySound }
{
    accepted_requests_leave_open_ledgers();
    commits_stay_sound();
    emptyings_stay_sound();
    filters_are_selections();
}

/// Whichever changes of a sound book that aren't final are in force, no snapshot misses a blob.
pub fn selections_of_books_are_sound()
    ensures { SelectionsOfBooksAreSound }
{
    selections_are_sound();
}

/// In a sound book as it is, no snapshot misses a blob.
pub fn books_are_sound()
    ensures { BooksAreSound }
{
    filters_are_selections();
    selections_of_books_are_sound();
}

/// A view knows the snapshots that are known in its book, and no others.
pub fn views_know_what_books_know()
    ensures { ViewsKnow }
{
    the_known_are_there_or_added();
}
