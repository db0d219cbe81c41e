ghost use Rattle.std.specs.Prelude.{◌≡◌, ◌++◌, IfOk, OnOk, map};
ghost use Rattle.keep_events.specs.Parts as spec;
ghost use Rattle.keep_events.specs.Parts.{file_part, mark_part};

use crate::part::{PartRow, Sign};
use keep_change::{Change, PackMark, StoredFile};
use keep_names::FileName;
use keep_rows::When;
use std::alloc::{AllocError, Global};

/// The files that a change adds and drops, and the marks that it sets and clears, in its order.
pub fn parts_of(alloc: Global, change: &Change) -> Result<Vec<PartRow>, AllocError>
    ensures { IfOk result (λ rows. rows.items ≡ spec.parts_of change.now) }
{
    let mut rows = Vec::new(alloc);
    push_files(&mut rows, Sign::Added, change.adds.as_slice())?;
    push_files(&mut rows, Sign::Dropped, change.drops.as_slice())?;
    push_marks(&mut rows, Sign::Set, change.sets.as_slice())?;
    push_marks(&mut rows, Sign::Cleared, change.clears.as_slice())?;
    Ok(rows)
}

fn push_files(rows: &mut Vec<PartRow>, sign: Sign, files: &[StoredFile]) -> Result<(), AllocError>
    ensures { OnOk result (rows.new.items ≡ rows.old.items ++ map (file_part sign) files.now) }
{
    for file in files {
        rows.push(PartRow {
            sign,
            name: file.name(),
            size: Some(file.bytes().as_slice().len() as u64),
            at: None,
        })?;
    }
    Ok(())
}

fn push_marks(rows: &mut Vec<PartRow>, sign: Sign, marks: &[PackMark]) -> Result<(), AllocError>
    ensures { OnOk result (rows.new.items ≡ rows.old.items ++ map (mark_part sign) marks.now) }
{
    for mark in marks {
        let moment = mark.mark.moment;
        rows.push(PartRow {
            sign,
            name: FileName::pack(mark.pack),
            size: None,
            at: Some(When { moment, offset: 0 }),
        })?;
    }
    Ok(())
}
