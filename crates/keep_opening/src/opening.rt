ghost use Rattle.std.specs.Prelude.{◌≡◌, ◌≢◌, ℕ, IfErr, IfOk};
ghost use Rattle.std.specs.FinMap as map;
ghost use Rattle.keep_change.specs.Fold.{fold_of};
ghost use Rattle.keep_journal.specs.History.{length_of};
ghost use Rattle.keep_journal.specs.Kept.{kept};
ghost use Rattle.keep_journal.specs.Opening.{AreWellFormed, IsOpen};
ghost use Rattle.keep_opening.specs.Opened.{IsRefused, IsRight, opening_in};
ghost use Rattle.keep_opening.specs.declared.open_error.OpenError.TheVariants as the_error;
ghost use Rattle.keep_reading.specs.Reads.{Reads};

use crate::leaf_history::history_of;
use crate::leaves::leaves_of;
use crate::made_files::{put_live, remake, unmake};
use crate::marking::marks_in;
use crate::open_error::OpenError;
use crate::settling::settle;
use crate::trash::{agree, wanted};
use keep_hashing::Hashing;
use keep_journal::History;
use keep_repo::Repo;
use keep_shelf::Stock;
use std::alloc::Global;

/// What is opened of what stands on a shelf.
#[derive(Drop)]
pub struct Opened {
    /// The repository that the changes of the history were made of.
    pub opening: Repo,
    /// The events that still tell something, each under its own number.
    pub history: History,
    /// What those changes that can still be undone make of the opening.
    pub live: Repo,
}

/// Reads what was taken in of a shelf: the one reading that it has, be the last event's moves all made or not.
///
/// `BadEntry` where it has none, and only then. `Memory` where memory runs out. What kept changes add is hashed by this.
pub fn read<H: Hashing>(alloc: Global, stock: &Stock, hashing: &mut H) -> Result<Opened, OpenError>
    ensures read { IfOk result (λ opened. Reads (map.get stock.now) opened.opening opened.history.journal) }
    ensures open { IfOk result (λ opened. IsOpen opened.opening opened.history.journal opened.live) }
    ensures refused { IfErr result (λ why. (k : ℕ) → why ≡ the_error.BadEntry k → IsRefused (map.get stock.now) k) }
    ensures why { IfErr result (λ why. why ≢ the_error.Fault) }
{
    let leaves = leaves_of(alloc, stock, hashing)?;
    let marked = marks_in(alloc, leaves.as_slice())?;
    let history = history_of(alloc, leaves)?;
    let mut settled = stock.copy()?;
    settle(alloc, &mut settled, &history)?;
    test(alloc, &settled, history, marked)
}

/// Makes the opening of the files, once the last event's moves are made, and tests that they are those that the history
/// tells.
fn test(alloc: Global, settled: &Stock, history: History, marked: Repo) -> Result<Opened, OpenError>
    requires formed { AreWellFormed history.journal }
    ensures opening { IfOk result (λ opened. opened.opening ≡ opening_in history.journal settled.now marked) }
    ensures history { IfOk result (λ opened. opened.history.journal ≡ history.journal) }
    ensures live { IfOk result (λ opened. opened.live ≡ fold_of (kept history.journal) opened.opening) }
    ensures right { IfOk result (λ opened. IsRight history.journal settled.now opened.opening) }
    ensures number { IfErr result (λ why. (k : ℕ) → why ≡ the_error.BadEntry k → k ≡ length_of history.journal) }
    ensures wrong { IfErr result (λ why. (k : ℕ) → why ≡ the_error.BadEntry k
        → IsRight history.journal settled.now (opening_in history.journal settled.now marked) → ⊥) }
    ensures why { IfErr result (λ why. why ≢ the_error.Fault) }
{
    let last = history.length();
    let mut opening = marked;
    put_live(settled, &mut opening)?;
    unmake(&history, &mut opening)?;
    let mut live = opening.copy()?;
    if !remake(&history, &mut live)? {
        return Err(OpenError::BadEntry(last));
    }
    let wanted = wanted(alloc, &history, &live)?;
    if !agree(settled, &wanted)? {
        return Err(OpenError::BadEntry(last));
    }
    Ok(Opened {
        opening,
        history,
        live,
    })
}
