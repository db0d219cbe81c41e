use keep_book::Book;
use keep_looks::{Unlisted, difference_rows, found_rows, node_rows, snapshot_rows};
use keep_names::Kind;
use keep_read::RestoreError;
use keep_run::{Failure, Run, meant, pattern_of, print_rows};
use keep_shelf::Shelf;
use keep_words::Chosen;

/// `keep snapshots`
pub fn list_snapshots<S: Shelf>(
    run: &Run<'_>,
    book: &Book<S>,
    chosen: &Chosen<'_>,
    latest: Option<u32>,
) -> Result<(), Failure> {
    let view = book.ledger().view();
    let history = book.ledger().history();
    let shown = snapshot_rows(run.alloc, &view, history, chosen, latest, run.zone)?;
    print_rows(run, shown.rows.as_slice())?;
    print_left_out(run, book, shown.unlisted.as_slice())
}

/// `keep ls`
pub fn list_nodes<S: Shelf>(
    run: &Run<'_>,
    book: &Book<S>,
    snapshot: &str,
    path: Option<&str>,
) -> Result<(), Failure> {
    let id = meant(run, book, snapshot)?;
    let view = book.ledger().view();
    match (node_rows(run.alloc, &view, id, path, run.zone), path) {
        (Ok(rows), Some(path)) if rows.is_empty() => {
            let cause = format!(in run.alloc; "{snapshot} has nothing at {path}")?;
            Err(Failure::Refused(cause))
        }
        (Ok(rows), _) => print_rows(run, rows.as_slice()),
        (Err(error), _) => Err(unlisted(run, snapshot, error)),
    }
}

/// `keep diff`
pub fn compare<S: Shelf>(
    run: &Run<'_>,
    book: &Book<S>,
    old: &str,
    new: &str,
) -> Result<(), Failure> {
    let old_id = meant(run, book, old)?;
    let new_id = meant(run, book, new)?;
    let view = book.ledger().view();
    match difference_rows(run.alloc, &view, old_id, new_id) {
        Ok(rows) if rows.is_empty() && !run.is_json => run.print(b"no difference\n"),
        Ok(rows) => print_rows(run, rows.as_slice()),
        Err(error) => {
            let cause = format!(in run.alloc;
                "cannot compare {old} with {new}: {error}: keep check lists what is wrong"
            )?;
            Err(Failure::Refused(cause))
        }
    }
}

/// `keep find`
pub fn find<S: Shelf>(run: &Run<'_>, book: &Book<S>, pattern: &str) -> Result<(), Failure> {
    let pattern = pattern_of(run, pattern)?;
    let view = book.ledger().view();
    let found = found_rows(run.alloc, &view, book.ledger().history(), &pattern)?;
    print_rows(run, found.rows.as_slice())?;
    print_left_out(run, book, found.unlisted.as_slice())
}

/// Names the snapshots that can't be read on standard error, and those whose trees can't be listed.
fn print_left_out<S: Shelf>(
    run: &Run<'_>,
    book: &Book<S>,
    unlisted: &[Unlisted],
) -> Result<(), Failure> {
    let unread = unread_snapshots(run, book)?;
    print_unlisted(run, unread.as_slice());
    print_unlisted(run, unlisted);
    if unread.is_empty() && unlisted.is_empty() {
        Ok(())
    } else {
        Err(Failure::Partly)
    }
}

fn print_unlisted(run: &Run<'_>, unlisted: &[Unlisted]) {
    for one in unlisted {
        let _said = eprintln!(run.rt; "keep: {one}");
    }
}

/// The snapshots that can't be read, whatever host, tags and paths they may have.
fn unread_snapshots<S: Shelf>(run: &Run<'_>, book: &Book<S>) -> Result<Vec<Unlisted>, Failure> {
    let view = book.ledger().view();
    let catalog = view.read_past(run.alloc)?;
    let files = catalog.unread(run.alloc)?;
    let mut unread = Vec::new(run.alloc);
    for file in &files {
        if file.name.kind == Kind::Snapshot {
            unread.push(Unlisted {
                snapshot: file.name.id,
                why: RestoreError::Unread(*file),
            })?;
        }
    }
    Ok(unread)
}

/// Says why the snapshot can't be listed.
fn unlisted(run: &Run<'_>, snapshot: &str, error: RestoreError) -> Failure {
    match format!(in run.alloc; "cannot list {snapshot}: {error}: keep check lists what is wrong") {
        Ok(cause) => Failure::Refused(cause),
        Err(_) => Failure::Memory,
    }
}
