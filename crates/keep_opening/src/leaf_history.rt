ghost use Rattle.std.specs.Prelude.{◌≡◌, ◌≢◌, ◌<◌, ℕ, Err, IfErr, IfOk, OnOk, None, Some, true};
ghost use Rattle.keep_journal.specs.History.{IsNumbered, final_after as final_after_of, final_number as final_number_of};
ghost use Rattle.keep_moves.specs.Move.{Stand};
ghost use Rattle.keep_opening.specs.Telling.{CanCome, WasAppended, top_after};
ghost use Rattle.keep_opening.specs.declared.open_error.OpenError.TheVariants as the_error;
ghost use Rattle.keep_reading.specs.Bad.{first_bad, fits_by, is_misfit as is_misfit_after, is_wrong};
ghost use Rattle.keep_reading.specs.Leaves.{AreLeaves, entries_of};
ghost use Rattle.keep_reading.specs.Reads.{all_of, told};
ghost use Rattle.keep_journal.specs.Lasting.{lasts as lasts_at};

use crate::open_error::OpenError;
use keep_journal::{Entry, Event, EventKind, History, Posting, Status};
use keep_reading::Leaf;
use std::alloc::Global;

/// The history of what the leaves of a shelf still tell, or the first of them with which something is wrong.
pub fn history_of(alloc: Global, leaves: Vec<Leaf>) -> Result<History, OpenError>
    requires { (stand : Stand) × AreLeaves stand leaves.items }
    ensures told { IfOk result (λ history. history.journal ≡ told (entries_of leaves.items)) }
    ensures right { OnOk result (first_bad leaves.items ≡ None) }
    ensures bad { IfErr result (λ why. (k : ℕ) → why ≡ the_error.BadEntry k → first_bad leaves.items ≡ Some k) }
    ensures why { IfErr result (λ why. why ≢ the_error.Fault) }
{
    let final_number = final_in(leaves.as_slice());
    let mut history = History::new(alloc, final_number);
    let mut top = 0;
    for leaf in leaves {
        top = append_leaf(alloc, &mut history, final_number, top, leaf)?;
    }
    Ok(history)
}

/// The number up to which the last emptying makes changes final, 0 where there is none.
fn final_in(leaves: &[Leaf]) -> u64
    ensures { result ≡ final_number_of (all_of (entries_of leaves.now)) }
{
    let mut number = 0;
    for leaf in leaves {
        number = final_after_leaf(number, leaf);
    }
    number
}

fn final_after_leaf(before: u64, leaf: &Leaf) -> u64
    ensures { result ≡ top_after before leaf.now }
{
    match &leaf.event {
        Some(event) => final_after(before, event),
        None => before,
    }
}

fn final_after(before: u64, event: &Event) -> u64
    ensures { result ≡ final_after_of before event.now }
{
    match &event.kind {
        EventKind::Empty(_) => event.number,
        EventKind::Commit(_) | EventKind::Undo | EventKind::Redo => before,
    }
}

/// Appends what the leaf tells, where nothing is wrong with it. The number is that up to which changes are final then.
fn append_leaf(
    alloc: Global,
    history: &mut History,
    final_number: u64,
    top: u64,
    leaf: Leaf,
) -> Result<u64, OpenError>
    requires { CanCome final_number top history.old.journal leaf }
    ensures taken { IfOk result (λ next. WasAppended final_number top history.old.journal leaf next history.new.journal) }
    ensures number { IfErr result (λ why. (k : ℕ) → why ≡ the_error.BadEntry k → k ≡ leaf.at) }
    ensures wrong { IfErr result (λ why. (k : ℕ) → why ≡ the_error.BadEntry k
        → is_wrong final_number top history.old.journal leaf ≡ true) }
    ensures found { is_wrong final_number top history.old.journal leaf ≡ true → result ≡ Err (the_error.BadEntry leaf.at) }
    ensures why { IfErr result (λ why. why ≢ the_error.Fault) }
{
    let Leaf { at, event } = leaf;
    let Some(event) = event else {
        return Err(OpenError::BadEntry(at));
    };
    if is_misfit(history, final_number, top, &event) {
        return Err(OpenError::BadEntry(at));
    }
    let next = final_after(top, &event);
    if lasts(final_number, &event) {
        let posting = Posting::of(alloc, Entry { at, event })?;
        history.reserve()?;
        history.push(posting);
    }
    Ok(next)
}

/// Whether the event is wrong where the last emptying so far was of changes up to top.
fn is_misfit(history: &History, final_number: u64, top: u64, event: &Event) -> bool
    ensures exact { result ≡ is_misfit_after final_number top history.now.journal event.now }
    ensures numbered { IsNumbered history.now.journal }
{
    let fits = fits(history, event);
    event.number <= top || lasts(final_number, event) && !fits
}

/// Whether the event still tells something where changes up to this number are final.
fn lasts(final_number: u64, event: &Event) -> bool
    ensures { result ≡ lasts_at final_number event.now }
{
    match &event.kind {
        EventKind::Empty(_) => event.number == final_number,
        EventKind::Commit(_) | EventKind::Undo | EventKind::Redo => final_number < event.number,
    }
}

/// Whether a told event fits the history.
fn fits(history: &History, event: &Event) -> bool
    ensures exact { result ≡ fits_by history.now.journal event.now.number event.now.kind }
    ensures numbered { IsNumbered history.now.journal }
{
    let n = event.number;
    let next = history.last_change().checked_add(1);
    match &event.kind {
        EventKind::Commit(_) => next == Some(n),
        EventKind::Undo => history.status(n) == Status::InForce,
        EventKind::Redo => history.status(n) == Status::Undone,
        EventKind::Empty(_) => true,
    }
}
