ghost use Rattle.std.specs.Prelude.{◌≡◌, [], IfOk, OnOk, length};

use keep_book::Book;
use keep_host_target::{caller, open_target};
use keep_progress::{CountedTarget, Meter};
use keep_putting::{Restored, Why};
use keep_restores::restore;
use keep_run::{Failure, Left, Run, left_value, meant, name_left, patterns_of};
use keep_shelf::Shelf;
use keep_tables::size;
use keep_words::Restore;
use serde_json::json;

/// `keep restore`
pub fn restore_snapshot<S: Shelf>(
    run: &Run<'_>,
    book: &Book<S>,
    words: &Restore<'_>,
) -> Result<(), Failure> {
    let snapshot = meant(run, book, words.snapshot)?;
    let include = patterns_of(run, words.include.as_slice())?;
    let owner = match caller(run.rt) {
        Ok(owner) => owner,
        Err(error) => {
            let cause = format!(in run.alloc; "cannot tell who runs this: {error}")?;
            return Err(Failure::Refused(cause));
        }
    };
    let folder = words.target;
    let mut target = match open_target(run.rt, folder) {
        Ok(target) => CountedTarget::new(target, Meter::new(run.rt, "restore", "files")),
        Err(refusal) => {
            let cause = format!(in run.alloc; "cannot restore to {folder}: {refusal}")?;
            return Err(Failure::Refused(cause));
        }
    };
    let view = book.ledger().view();
    let came = restore(
        run.alloc,
        &view,
        snapshot,
        include.as_slice(),
        owner,
        &mut target,
    );
    drop(target);
    match came {
        Ok(restored) => print_restored(run, &restored),
        Err(error) => {
            let cause = format!(in run.alloc; "cannot restore to {folder}: {error}")?;
            Err(Failure::Refused(cause))
        }
    }
}

/// Prints what was put back, and names what isn't as the snapshot says.
fn print_restored(run: &Run<'_>, restored: &Restored) -> Result<(), Failure>
    ensures { OnOk result (restored.now.left_out.items ≡ []) }
{
    let left = left_of(run, restored)?;
    print_counts(run, restored, left.as_slice())?;
    name_left(run, left.as_slice())
}

/// Prints how much was put back.
fn print_counts(run: &Run<'_>, restored: &Restored, left: &[Left]) -> Result<(), Failure> {
    let Restored {
        files,
        folders,
        links,
        bytes,
        owners,
        link_times,
        left_out: _,
    } = restored;
    if run.is_json {
        let left_out = left_value(run, left)?;
        let value = json!(in run.alloc; {
            "bytes": *bytes,
            "files": *files,
            "folders": *folders,
            "left_out": left_out,
            "link_times": *link_times,
            "links": *links,
            "owners": *owners
        })?;
        return run.print_value(&value);
    }
    let bytes = size(run.alloc, *bytes)?;
    let text = format!(in run.alloc;
        "restored: {files} files ({bytes}), {folders} folders, {links} links\n"
    )?;
    run.print(text.as_bytes())?;
    if *owners > 0 {
        let text = format!(in run.alloc; "of another owner than in the snapshot: {owners}\n")?;
        run.print(text.as_bytes())?;
    }
    Ok(())
}

/// What isn't as the snapshot says, in words.
fn left_of(run: &Run<'_>, restored: &Restored) -> Result<Vec<Left>, Failure>
    ensures { IfOk result (λ left. length left.items ≡ length restored.now.left_out.items) }
{
    let mut left = Vec::new(run.alloc);
    for one in &restored.left_out {
        let path = one.path.clone()?;
        let why = why_text(run, one.why)?;
        left.push(Left { path, why })?;
    }
    Ok(left)
}

fn why_text(run: &Run<'_>, why: Why) -> Result<String, Failure> {
    let text = match why {
        Why::BadName => String::from_str(run.alloc, "no file can have its name here")?,
        Why::NoFolder => String::from_str(run.alloc, "the folder that holds it isn't there")?,
        Why::OtherType => String::from_str(run.alloc, "it is no file, folder or link")?,
        Why::NotMade(refusal) => format!(in run.alloc; "it isn't made: {refusal}")?,
        Why::Cut { written, refusal } => {
            format!(in run.alloc; "it has its first {written} bytes alone: {refusal}")?
        }
        Why::Lost { written } => {
            format!(in run.alloc; "it has its first {written} bytes alone: the rest is lost")?
        }
        Why::NoOwner(refusal) => format!(in run.alloc; "its owner isn't set: {refusal}")?,
        Why::NoMode(refusal) => format!(in run.alloc; "its mode isn't set: {refusal}")?,
        Why::NoTimes(refusal) => format!(in run.alloc; "its times aren't set: {refusal}")?,
    };
    Ok(text)
}
