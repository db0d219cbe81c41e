use keep_book::Book;
use keep_restores::{NotDumped, dump};
use keep_run::{Failure, Run, meant};
use keep_shelf::Shelf;
use std::io::Write;

/// `keep dump`: the bytes of a file on standard output, as they are.
pub fn dump_file<S: Shelf>(
    run: &Run<'_>,
    book: &Book<S>,
    snapshot: &str,
    path: &str,
) -> Result<(), Failure> {
    let id = meant(run, book, snapshot)?;
    let view = book.ledger().view();
    let mut output = run.rt.stdout();
    match dump(run.alloc, &view, id, path, &mut output) {
        Ok(_) if output.flush().is_ok() => Ok(()),
        Ok(_) | Err(NotDumped::WriteFailed) => Err(Failure::Unwritten),
        Err(NotDumped::Memory) => Err(Failure::Memory),
        Err(error) => {
            let cause = format!(in run.alloc; "cannot dump {path}: {error}")?;
            Err(Failure::Refused(cause))
        }
    }
}
