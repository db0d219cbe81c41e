use crate::printed_parts::{Way, print_parts_of};
use keep_book::Book;
use keep_run::{Failure, Run, numbers_text, refused};
use keep_shelf::Shelf;

/// `keep show`: what the change added and dropped, and what would have to be undone with it.
pub fn show<S: Shelf>(run: &Run<'_>, book: &Book<S>, number: u64) -> Result<(), Failure> {
    let numbers = match book.taken_with(number) {
        Ok(numbers) => numbers,
        Err(refusal) => return Err(refused(run, number, &refusal)),
    };
    let list = numbers_text(run, &numbers)?;
    let history = book.ledger().history();
    if run.is_json {
        let head = format!(in run.alloc;
            "{{\"change\":{number},\"undone_with\":[{list}],\"parts\":"
        )?;
        run.print(head.as_bytes())?;
        print_parts_of(run, history, number, Way::Forth)?;
        return run.print(b"}\n");
    }
    print_parts_of(run, history, number, Way::Forth)?;
    let text = format!(in run.alloc; "undo {number} --with-all takes back: {list}\n")?;
    run.print(text.as_bytes())
}
