ghost use Rattle.std.specs.Prelude.{◌≡◌, IfErr};
ghost use Rattle.keep_book.specs.Armed.{HasSums, ledger_of};
ghost use Rattle.keep_acts.specs.Coming.{Comes};

use crate::made::Made;
use keep_book::Book;
use keep_ledger::{Refusal, Request};
use keep_shelf::Shelf;

/// Asks the book, and says what its reply comes to. An event that is in has come to something, settled or not.
pub fn ask<S: Shelf>(book: &mut Book<S>, request: Request) -> Result<Made, Refusal>
    requires { HasSums book.old }
    ensures comes { Comes book.old request result book.new }
    ensures refused { IfErr result (λ refusal. ledger_of book.new ≡ ledger_of book.old) }
    ensures sums { HasSums book.new }
{
    match book.ask(request) {
        Ok(told) => Ok(Made {
            number: told.number,
            event: told.at,
            is_unsettled: false,
        }),
        Err(Refusal::Unsettled(number)) => Ok(Made {
            number,
            event: book.ledger().history().length(),
            is_unsettled: true,
        }),
        Err(refusal) => Err(refusal),
    }
}
