ghost use Rattle.std.specs.Prelude.{◌≡◌, IfOk, map};
ghost use Rattle.keep_docs.specs.Doc.{Answers};
ghost use Rattle.keep_catalog.specs.declared.reach_error.ReachError.TheVariants.{Memory};
ghost use Rattle.keep_nodes.specs.Lent.{difference_view};
ghost use Rattle.keep_read.specs.declared.restore_error.RestoreError.TheVariants.{Reach};
ghost use Rattle.keep_looks.specs.Nodes.{difference_due, difference_rows_due, difference_shown};

use keep_names::Id;
use keep_nodes::{Difference, differences, nodes_of};
use keep_read::RestoreError;
use keep_rows::DifferenceRow;
use keep_view::View;
use std::alloc::{AllocError, Global};

/// How the new snapshot differs from the old one, at each path that the one or the other has, in the byte order of
/// paths. Where either can't be listed it is refused, the old one first.
pub fn difference_rows(
    alloc: Global,
    view: &View,
    old: Id,
    new: Id,
) -> Result<Vec<DifferenceRow>, RestoreError>
    ensures { Answers (Reach Memory) (λ rows. map difference_shown rows.items)
        (difference_rows_due view.now.repo old new) result }
{
    let before = nodes_of(alloc, view, old)?;
    let after = nodes_of(alloc, view, new)?;
    let found = differences(alloc, &before, &after)?;
    let rows = rows_of(alloc, &found)?;
    Ok(rows)
}

fn rows_of(alloc: Global, found: &[Difference<'_>]) -> Result<Vec<DifferenceRow>, AllocError>
    ensures { IfOk result (λ rows. map difference_shown rows.items
        ≡ map difference_due (map difference_view found.now)) }
{
    let mut rows = Vec::new(alloc);
    for difference in found {
        let row = row_of(difference)?;
        rows.push(row)?;
    }
    Ok(rows)
}

fn row_of(difference: &Difference<'_>) -> Result<DifferenceRow, AllocError>
    ensures { IfOk result (λ row. difference_shown row ≡ difference_due (difference_view difference.now)) }
{
    let (kind, entry) = match difference {
        Difference::Added(new) => (keep_rows::Difference::Added, *new),
        Difference::Removed(old) => (keep_rows::Difference::Removed, *old),
        Difference::Changed { old: _, new } => (keep_rows::Difference::Modified, *new),
    };
    let path = entry.path.clone()?;
    Ok(DifferenceRow {
        difference: kind,
        path,
    })
}
