ghost use Rattle.std.specs.Prelude.{◌≡◌, IfOk};
ghost use Rattle.std.specs.FinMap as map;
ghost use Rattle.keep_opening.specs.Intake.{taken_into};
ghost use Rattle.keep_shelf.specs.Shelved.{stocked};

use keep_opening::{OpenError, read_stock};
use keep_shelf::{Fault, Key, MemoryShelf, Shelf, Stock};
use std::alloc::Global;

/// What stands on a shelf, on a new one in memory. The bytes are shared, and the shelf is only read.
pub fn copied<S: Shelf>(alloc: Global, shelf: &mut S) -> Result<MemoryShelf, OpenError>
    ensures all { IfOk result (λ copy. copy ≡ stocked (S.shelved shelf.old).content) }
    ensures same { (S.shelved shelf.new).content ≡ (S.shelved shelf.old).content }
{
    let stock = read_stock(alloc, shelf)?;
    let keys = stock.keys()?;
    let copy = shelf_of(alloc, &stock, keys.as_slice())?;
    Ok(copy.afresh())
}

/// A shelf in memory with what is under these keys.
fn shelf_of(alloc: Global, stock: &Stock, keys: &[Key]) -> Result<MemoryShelf, OpenError>
    ensures { IfOk result (λ copy. copy.content ≡ taken_into stock.now keys.now map.empty) }
{
    let mut copy = MemoryShelf::new(alloc);
    for key in keys {
        if let Some(bytes) = stock.shared(*key)? {
            if let Err(Fault) = copy.write(*key, &bytes) {
                return Err(OpenError::Memory);
            }
        }
    }
    Ok(copy)
}
