ghost use Rattle.keep_planned_books.specs.Selected.{PlannedSelectionsAreWhole};

use crate::book_laws::planned_changes_keep_whole;
use crate::views_know_what_books_know;
use keep_sound::selections_are_whole;

/// No selection of planned changes loses a blob: whichever of them are made of a whole opening, in their order, what
/// they make is whole.
pub fn planned_selections_are_whole()
    ensures { PlannedSelectionsAreWhole }
{
    planned_changes_keep_whole();
    views_know_what_books_know();
    selections_are_whole();
}
