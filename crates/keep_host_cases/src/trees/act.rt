ghost use Rattle.keep_files.specs.Content.{HoldsFiles};
ghost use Rattle.keep_files.specs.Stands.{IsClosed};
ghost use Rattle.keep_keyed_folder.specs.Keyed.{stands_in};

use crate::trees::tree_stop::Stop;
use keep_files::{FileTree, TreeError};
use keep_keyed_folder::{KeyPath, KeyedFolder};
use keep_paths::key_is_sized;
use keep_rope::Rope;
use keep_shelf::{Key, Stock};
use std::alloc::Global;

/// What is done with the tree of a case.
#[derive(Drop)]
pub(crate) enum Act {
    Walk,
    Put(Key, Rope),
    /// From the first key to the second.
    Shift(Key, Key),
    Remove(Key),
    Clear,
}

/// Does the act in a folder of keys in which this was found, and answers what that answers.
pub(crate) fn perform<T: FileTree>(
    alloc: Global,
    folder: &mut KeyedFolder<T>,
    found: &Stock,
    act: &Act,
) -> Result<Result<(), TreeError>, Stop>
    requires closed { IsClosed (stands_in T.seen folder.old) }
    requires found { HoldsFiles (stands_in T.seen folder.old) found.now }
    ensures { IsClosed (stands_in T.seen folder.new) }
{
    match act {
        Act::Walk => Err(Stop::NoRow),
        Act::Put(key, bytes) => {
            let path = KeyPath::new(alloc, *key)?;
            Ok(folder.put(&path, bytes))
        }
        Act::Shift(from, to) => shift(alloc, folder, found, *from, *to),
        Act::Remove(key) => {
            let path = KeyPath::new(alloc, *key)?;
            Ok(folder.remove(&path))
        }
        Act::Clear => Ok(folder.clear_leftovers()),
    }
}

fn shift<T: FileTree>(
    alloc: Global,
    folder: &mut KeyedFolder<T>,
    found: &Stock,
    from: Key,
    to: Key,
) -> Result<Result<(), TreeError>, Stop>
    requires closed { IsClosed (stands_in T.seen folder.old) }
    requires found { HoldsFiles (stands_in T.seen folder.old) found.now }
    ensures { IsClosed (stands_in T.seen folder.new) }
{
    if found.get(from).is_none() {
        return Err(Stop::NoTree);
    }
    if from == to {
        return Err(Stop::NoRow);
    }
    key_is_sized(from);
    let from = KeyPath::new(alloc, from)?;
    let to = KeyPath::new(alloc, to)?;
    Ok(folder.shift(&from, &to))
}
