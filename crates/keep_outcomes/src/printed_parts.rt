use keep_change::Change;
use keep_events::{PartRow, Sign, parts_of};
use keep_journal::History;
use keep_rows::document_of;
use keep_run::{Failure, Run, print_rows};

/// Whether an event made its change, or took it back.
#[derive(Clone, Copy)]
pub enum Way {
    Forth,
    Back,
}

/// Prints the files and marks of the change of this number. Of a final one they aren't known.
pub(crate) fn print_parts_of(
    run: &Run<'_>,
    history: &History,
    number: u64,
    way: Way,
) -> Result<(), Failure> {
    match history.change(number) {
        Some(change) => print_parts(run, change, way),
        None if run.is_json => run.print(b"[]"),
        None => Ok(()),
    }
}

/// Prints what becomes of the files and marks of the change, as a table or as a list of objects.
pub(crate) fn print_parts(run: &Run<'_>, change: &Change, way: Way) -> Result<(), Failure> {
    let mut rows = parts_of(run.alloc, change)?;
    if let Way::Back = way {
        turn(rows.as_mut_slice());
    }
    if !run.is_json {
        return print_rows(run, rows.as_slice());
    }
    let text = document_of(run.alloc, rows.as_slice())?;
    run.print(text.as_slice().trim_ascii_end())
}

/// Says of each part what its change's undo does.
fn turn(rows: &mut [PartRow]) {
    for row in rows.iter_mut() {
        row.sign = match row.sign {
            Sign::Added => Sign::Dropped,
            Sign::Dropped => Sign::Added,
            Sign::Set => Sign::Cleared,
            Sign::Cleared => Sign::Set,
        };
    }
}
