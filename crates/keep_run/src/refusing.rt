use crate::failure::Failure;
use crate::run::Run;
use keep_acts::Advice;
use keep_book::Book;
use keep_ledger::Refusal;
use keep_shelf::Shelf;

/// Says why a request about this change was refused, and what to do then.
pub fn refused(run: &Run<'_>, about: u64, refusal: &Refusal) -> Failure {
    Failure::refused(run.alloc, &Advice { about, refusal })
}

/// Fails where a call of the book's shelf failed, and it isn't known whether it was done. Then it isn't known either whether
/// what was asked of the book was done, whatever it answered.
pub fn require_sure<S: Shelf>(run: &Run<'_>, book: &Book<S>) -> Result<(), Failure> {
    if book.ledger().shelf().is_sure() {
        return Ok(());
    }
    let cause = String::from_str(
        run.alloc,
        "the repository's folder failed, and it can't be told whether this was done: keep history lists what was",
    )?;
    Err(Failure::Refused(cause))
}
