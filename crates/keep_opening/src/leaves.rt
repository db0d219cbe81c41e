ghost use Rattle.std.specs.Prelude.{◌≡◌, ◌++◌, IfOk, List, OnOk};
ghost use Rattle.std.specs.FinMap as map;
ghost use Rattle.keep_opening.specs.Leafing.{AreUnder};
ghost use Rattle.keep_reading.specs.Leaves.{AreLeaves, Tells};
ghost use Rattle.keep_reading.specs.declared.leaf.Leaf as the_leaf;

use crate::held_files::files_held;
use keep_entries::{EntryError, read_entry_with};
use keep_hashing::Hashing;
use keep_reading::Leaf;
use keep_repo::Repo;
use keep_rope::Rope;
use keep_shelf::{Key, Stock};
use std::alloc::{AllocError, Global};

/// What stands under the keys of entries, each read. Bytes of a change that the stock has as a file are held once, and those
/// that an entry adds are hashed together.
pub fn leaves_of<H: Hashing>(
    alloc: Global,
    stock: &Stock,
    hashing: &mut H,
) -> Result<Vec<Leaf>, AllocError>
    ensures { IfOk result (λ leaves. AreLeaves (map.get stock.now) leaves.items) }
{
    let keys = stock.keys()?;
    let held = files_held(alloc, stock, &keys)?;
    let mut leaves = Vec::new(alloc);
    for key in &keys {
        push_leaf(alloc, stock, &held, hashing, *key, &mut leaves)?;
    }
    Ok(leaves)
}

/// Appends the leaf under the key, if it is that of an entry.
fn push_leaf<H: Hashing>(
    alloc: Global,
    stock: &Stock,
    held: &Repo,
    hashing: &mut H,
    key: Key,
    leaves: &mut Vec<Leaf>,
) -> Result<(), AllocError>
    ensures { OnOk result ((more : List the_leaf.Leaf)
        × (leaves.new.items ≡ leaves.old.items ++ more) × AreUnder (map.get stock.now) key more) }
{
    if let Key::Entry(k) = key {
        if let Some(text) = stock.get(key) {
            leaves.push(leaf_of(alloc, held, hashing, k, text)?)?;
        }
    }
    Ok(())
}

/// The leaf of this number, with this text.
fn leaf_of<H: Hashing>(
    alloc: Global,
    held: &Repo,
    hashing: &mut H,
    k: u64,
    text: &Rope,
) -> Result<Leaf, AllocError>
    ensures number { IfOk result (λ leaf. leaf.at ≡ k) }
    ensures tells { IfOk result (λ leaf. Tells k text.now leaf.event) }
{
    match read_entry_with(alloc, held, hashing, k, text) {
        Ok(entry) => Ok(Leaf {
            at: k,
            event: Some(entry.event),
        }),
        Err(EntryError::BadEntry(_)) => Ok(Leaf { at: k, event: None }),
        Err(EntryError::Memory) => Err(AllocError),
    }
}
