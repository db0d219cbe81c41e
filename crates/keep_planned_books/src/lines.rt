ghost use Rattle.keep_planned_books.specs.Lines.{JobsLoseNothing, RevisionsLoseNothing, TakenLoseNothing};

use crate::planned_histories_lose_nothing;

/// The answers to lines go on with a planned history, as long as no file is added or dropped by hand: so no snapshot
/// loses a blob by them. Lines that ask for no job and take nothing back leave the book as it is.
pub fn planned_lines_lose_nothing()
    ensures jobs { JobsLoseNothing }
    ensures revisions { RevisionsLoseNothing }
    ensures cascades { TakenLoseNothing }
{
    planned_histories_lose_nothing();
}
