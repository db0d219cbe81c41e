ghost use Rattle.std.specs.Prelude.{◌≤◌, ◌↔◌, IsTrue, length};
ghost use Rattle.std.specs.List.Sorted.{IsStrictlySortedBy};
ghost use Rattle.keep_names.specs.Orders.{id_cmp};
ghost use Rattle.keep_change.specs.Form.{IsWellFormed};
ghost use Rattle.keep_change.specs.Limits.{facet_limit};
ghost use Rattle.keep_change.specs.Lists.{marked_packs};
ghost use Rattle.keep_change.specs.Touch.{facets};
ghost use Rattle.keep_entries.specs.Entry.{IsProper};

use keep_change::{Change, PackMark};
use keep_journal::EventKind;

/// Whether a journal can have an event of this kind.
pub(crate) fn is_proper(kind: &EventKind) -> bool
    ensures { IsTrue result ↔ IsProper kind.now }
{
    match kind {
        EventKind::Commit(change) => can_be_committed(change.as_change()),
        EventKind::Undo | EventKind::Redo => true,
        EventKind::Empty(marks) => are_in_order(marks.as_slice()),
    }
}

/// Whether the change is well formed and within the limit of facets.
fn can_be_committed(change: &Change) -> bool
    ensures { IsTrue result ↔ (IsWellFormed change.now × (length (facets change.now) ≤ facet_limit)) }
{
    change.is_within_limit() && change.well_formed()
}

/// Whether each mark's pack is above the one before.
fn are_in_order(marks: &[PackMark]) -> bool
    ensures { IsTrue result ↔ IsStrictlySortedBy id_cmp (marked_packs marks.now) }
{
    marks.is_sorted_by(|one, next| one.pack.cmp(&next.pack).is_lt())
}
