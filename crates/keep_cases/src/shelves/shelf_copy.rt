ghost use Rattle.std.specs.Prelude.{◌≡◌, IfOk};
ghost use Rattle.std.specs.FinMap as map;
ghost use Rattle.keep_cases.specs.Found.{found_under};

use keep_shelf::{Fault, Key, MemoryShelf, Shelf};
use std::alloc::Global;

/// A shelf in memory with what stands on this one, which is only read: once for the keys, and once for each of them.
pub(crate) fn read_all<S: Shelf>(alloc: Global, shelf: &mut S) -> Result<MemoryShelf, Fault>
    ensures copy { IfOk result (λ copy. copy.content ≡ (S.shelved shelf.old).content) }
    ensures same { (S.shelved shelf.new).content ≡ (S.shelved shelf.old).content }
{
    let keys = shelf.list()?;
    read_keys(alloc, shelf, keys.as_slice())
}

/// A shelf in memory with what stands under these keys, each of which is read once.
fn read_keys<S: Shelf>(alloc: Global, shelf: &mut S, keys: &[Key]) -> Result<MemoryShelf, Fault>
    ensures copy { let content = (S.shelved shelf.old).content in
        IfOk result (λ copy. copy.content ≡ found_under content keys.now map.empty) }
    ensures same { (S.shelved shelf.new).content ≡ (S.shelved shelf.old).content }
{
    let mut copy = MemoryShelf::new(alloc);
    for key in keys {
        if let Some(bytes) = shelf.read(*key)? {
            copy.write(*key, &bytes)?;
        }
    }
    Ok(copy)
}
