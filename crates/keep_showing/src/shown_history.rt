use keep_book::Book;
use keep_events::{EventRow, Wrote, events_of};
use keep_paths::path_of_key;
use keep_rows::When;
use keep_run::{Failure, Run, print_rows};
use keep_shelf::{Key, Shelf};
use std::fs;
use std::os::unix::fs::MetadataExt;

/// `keep history`
pub fn history<S: Shelf>(run: &Run<'_>, book: &Book<S>, last: Option<u32>) -> Result<(), Failure> {
    let last = match last {
        Some(count) => Some(u64::from(count)),
        None => None,
    };
    let mut rows = events_of(run.alloc, book.ledger().history(), last)?;
    for row in rows.iter_mut() {
        row.when = time_of(run, row.at)?;
        set_offsets(run, row);
    }
    print_rows(run, rows.as_slice())
}

/// Says the moment of what was backed up as the machine's zone has it.
pub(crate) fn set_offsets(run: &Run<'_>, row: &mut EventRow) {
    if let Some(Wrote::Whole(_, Some(taken))) = &mut row.wrote {
        set_offset(run, &mut taken.at);
    }
}

fn set_offset(run: &Run<'_>, at: &mut Option<When>) {
    if let Some(when) = at {
        when.offset = run.zone.offset_at(when.moment);
    }
}

/// When the event was written: the time of its entry in the folder, where that can be had.
fn time_of(run: &Run<'_>, event: u64) -> Result<Option<When>, Failure> {
    let path = path_of_key(run.alloc, Key::Entry(event))?;
    let path = format!(in run.alloc; "{}/{path}", run.folder)?;
    match fs::symlink_metadata(run.rt, path.as_str()) {
        Ok(seen) => {
            let moment = seen.mtime();
            let offset = run.zone.offset_at(moment);
            Ok(Some(When { moment, offset }))
        }
        Err(_) => Ok(None),
    }
}
