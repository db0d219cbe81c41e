ghost use Rattle.std.specs.Prelude.{◌≡◌, IfOk, OnOk, option_copied};
ghost use Rattle.keep_change.specs.Result.{put_marks as marks_with};
ghost use Rattle.keep_journal.specs.History.{last_marks as marks_told};
ghost use Rattle.keep_opening.specs.Marking.{marks_under};
ghost use Rattle.keep_opening.specs.Opened.{marks_alone};
ghost use Rattle.keep_reading.specs.Leaves.{entries_of};
ghost use Rattle.keep_reading.specs.Reads.{all_of};

use keep_change::PackMark;
use keep_journal::EventKind;
use keep_reading::Leaf;
use keep_repo::Repo;
use std::alloc::{AllocError, Global};

/// The repository without files that has the marks of the last emptying.
pub(crate) fn marks_in(alloc: Global, leaves: &[Leaf]) -> Result<Repo, AllocError>
    ensures { IfOk result (λ repo. repo ≡ marks_alone leaves.now) }
{
    let mut repo = Repo::new(alloc);
    if let Some(marks) = last_marks(leaves) {
        put_marks(marks, &mut repo)?;
    }
    Ok(repo)
}

/// The marks of the last emptying.
fn last_marks(leaves: &[Leaf]) -> Option<&[PackMark]>
    ensures { option_copied result ≡ marks_told (all_of (entries_of leaves.now)) }
{
    let mut last = None;
    for leaf in leaves {
        if let Some(marks) = marks_of(leaf) {
            last = Some(marks);
        }
    }
    last
}

fn marks_of(leaf: &Leaf) -> Option<&[PackMark]>
    ensures { option_copied result ≡ marks_under leaf.now }
{
    match &leaf.event.as_ref()?.kind {
        EventKind::Empty(marks) => Some(marks.as_slice()),
        EventKind::Commit(_) | EventKind::Undo | EventKind::Redo => None,
    }
}

fn put_marks(marks: &[PackMark], repo: &mut Repo) -> Result<(), AllocError>
    ensures { OnOk result (repo.new ≡ record repo.old { marks = marks_with marks.now repo.old.marks }) }
{
    for put in marks {
        repo.insert_mark(put.pack, put.mark)?;
    }
    Ok(())
}
