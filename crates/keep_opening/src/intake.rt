ghost use Rattle.std.specs.Prelude.{◌≡◌, ◌+◌, IfErr, IfOk, OnOk, length};
ghost use Rattle.std.specs.FinMap as map;
ghost use Rattle.keep_moves.specs.Calls.{looks, played};
ghost use Rattle.keep_opening.specs.Intake.{StopsShort, taken_into};

use crate::open_error::OpenError;
use keep_shelf::{Key, Shelf, Stock};
use std::alloc::Global;

/// All that stands on the shelf. The keys are listed and what is under each is read; nothing is changed there. Where a
/// call fails it is the last one.
pub fn read_stock<S: Shelf>(alloc: Global, shelf: &mut S) -> Result<Stock, OpenError>
    ensures all { IfOk result (λ stock. stock ≡ (S.shelved shelf.old).content) }
    ensures calls { let before = S.shelved shelf.old in
        OnOk result (S.shelved shelf.new ≡ played (looks (1 + length (map.keys before.content))) before) }
    ensures short { let before = S.shelved shelf.old in
        IfErr result (λ why. StopsShort (1 + length (map.keys before.content)) before why (S.shelved shelf.new)) }
    ensures same { (S.shelved shelf.new).content ≡ (S.shelved shelf.old).content }
{
    let keys = shelf.list()?;
    fill(alloc, shelf, keys.as_slice())
}

/// What stands under these keys.
fn fill<S: Shelf>(alloc: Global, shelf: &mut S, keys: &[Key]) -> Result<Stock, OpenError>
    ensures all { IfOk result (λ stock. stock ≡ taken_into (S.shelved shelf.old).content keys.now map.empty) }
    ensures calls { let before = S.shelved shelf.old in
        OnOk result (S.shelved shelf.new ≡ played (looks (length keys.now)) before) }
    ensures short { IfErr result (λ why. StopsShort (length keys.now) (S.shelved shelf.old) why (S.shelved shelf.new)) }
    ensures same { (S.shelved shelf.new).content ≡ (S.shelved shelf.old).content }
{
    let mut stock = Stock::new(alloc);
    for key in keys {
        let found = shelf.read(*key)?;
        if let Some(bytes) = found {
            stock.write(*key, bytes)?;
        }
    }
    Ok(stock)
}
