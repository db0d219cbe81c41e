ghost use Rattle.std.specs.Prelude.{◌≡◌, ◌≢◌, ◌∷◌, ℕ, [], IfErr, IfOk};
ghost use Rattle.std.specs.FinMap as map;
ghost use Rattle.std.specs.List.{AllByRecursion};
ghost use Rattle.keep_damage.specs.Blame.{IsToBlame};
ghost use Rattle.keep_damage.specs.Damage.{IsDamage, AreDifferences, IsLeft, IsRead};
ghost use Rattle.keep_journal.specs.Opening.{AreWellFormed};
ghost use Rattle.keep_opening.specs.declared.open_error.OpenError.TheVariants as the_error;

use crate::asked::asked;
use crate::comparing::compare;
use crate::entries::bad_entries;
use crate::finding::Finding;
use crate::sign::signs_of;
use keep_hashing::OneByOne;
use keep_journal::History;
use keep_opening::{OpenError, history_of, leaves_of, read, read_stock, settle};
use keep_shelf::{Shelf, Stock};
use std::alloc::{AllocError, Global};

/// What is wrong with what stands on the shelf, as `damage_in` says it of what is taken in. The keys are listed and what
/// is under each is read; nothing is changed there. `Fault` where a call fails, `Memory` where memory runs out.
pub fn damage_on<S: Shelf>(alloc: Global, shelf: &mut S) -> Result<Vec<Finding>, OpenError>
    ensures damage { let stand = map.get (S.shelved shelf.old).content in
        IfOk result (λ found. IsDamage stand found.items) }
    ensures blame { let stand = map.get (S.shelved shelf.old).content in
        IfOk result (λ found. AllByRecursion (IsToBlame stand) found.items) }
    ensures none { let stand = map.get (S.shelved shelf.old).content in
        IfOk result (λ found. found.items ≡ [] → IsRead stand) }
    ensures why { IfErr result (λ why. (k : ℕ) → why ≢ the_error.BadEntry k) }
    ensures same { (S.shelved shelf.new).content ≡ (S.shelved shelf.old).content }
{
    let stock = read_stock(alloc, shelf)?;
    let found = damage_in(alloc, &stock)?;
    Ok(found)
}

/// What is wrong with what was taken in of a shelf: nothing where it can be read, and else the first ten findings, where
/// there are so many. Where entries are wrong these are told, by number, and files aren't looked at, since what they
/// should be isn't told then. Else the files that are there come by their keys, and then those that are missing.
pub fn damage_in(alloc: Global, stock: &Stock) -> Result<Vec<Finding>, AllocError>
    ensures damage { IfOk result (λ found. IsDamage (map.get stock.now) found.items) }
    ensures blame { IfOk result (λ found. AllByRecursion (IsToBlame (map.get stock.now)) found.items) }
    ensures none { IfOk result (λ found. found.items ≡ [] → IsRead (map.get stock.now)) }
{
    let found = findings(alloc, stock)?;
    Ok(found)
}

/// What is wrong with entries, where something is, and else with files.
fn findings(alloc: Global, stock: &Stock) -> Result<Vec<Finding>, AllocError>
    ensures { IfOk result (λ found. IsDamage (map.get stock.now) found.items) }
{
    let leaves = leaves_of(alloc, stock, &mut OneByOne)?;
    let signs = signs_of(alloc, leaves.as_slice())?;
    match history_of(alloc, leaves) {
        Ok(history) => damage_of_files(alloc, stock, &history),
        Err(OpenError::BadEntry(first)) => bad_entries(alloc, first, signs.as_slice()),
        Err(OpenError::Memory | OpenError::Fault) => Err(AllocError),
    }
}

/// What is wrong with files, or else with the changes.
fn damage_of_files(
    alloc: Global,
    stock: &Stock,
    history: &History,
) -> Result<Vec<Finding>, AllocError>
    requires formed { AreWellFormed history.now.journal }
    ensures { IfOk result (λ found. IsLeft (map.get stock.now) history.now.journal found.items) }
{
    let found = differences(alloc, stock, history)?;
    if found.is_empty() {
        return what_is_left(alloc, stock);
    }
    Ok(found)
}

/// Where the files, with the last event's moves made, aren't as the history asks.
fn differences(alloc: Global, stock: &Stock, history: &History) -> Result<Vec<Finding>, AllocError>
    requires formed { AreWellFormed history.now.journal }
    ensures { IfOk result (λ found. AreDifferences (map.get stock.now) history.now.journal found.items) }
{
    let mut there = stock.copy()?;
    settle(alloc, &mut there, history)?;
    let asked = asked(alloc, history, &there)?;
    compare(alloc, history, &there, &asked)
}

ghost use Rattle.keep_damage.specs.Damage.{IsRest};

/// Nothing where it can be read, and else that the changes can't be made.
fn what_is_left(alloc: Global, stock: &Stock) -> Result<Vec<Finding>, AllocError>
    ensures { IfOk result (λ found. IsRest (map.get stock.now) found.items) }
{
    match read(alloc, stock, &mut OneByOne) {
        Ok(_) => Ok(Vec::new(alloc)),
        Err(OpenError::BadEntry(_)) => unmade(alloc),
        Err(OpenError::Memory | OpenError::Fault) => Err(AllocError),
    }
}

fn unmade(alloc: Global) -> Result<Vec<Finding>, AllocError>
    ensures { IfOk result (λ found. found.items ≡ Finding.Unmade ∷ []) }
{
    let mut found = Vec::new(alloc);
    found.push(Finding::Unmade)?;
    Ok(found)
}
