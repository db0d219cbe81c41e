ghost use Rattle.std.specs.Prelude.{IfOk, map};
ghost use Rattle.std.specs.List.{AllZip};
ghost use Rattle.keep_restores.specs.Wanted.{IsWantedOf};

use crate::wanted::wanted_of;
use keep_nodes::PathNode;
use keep_putting::Wanted;
use std::alloc::{AllocError, Global};

/// What is to be put back of each of these nodes.
pub(crate) fn wanted_for(alloc: Global, entries: &[&PathNode]) -> Result<Vec<Wanted>, AllocError>
    ensures { IfOk result (λ wanted.
        AllZip IsWantedOf (map (λ entry. entry.now) entries.now) wanted.items) }
{
    let mut all = Vec::with_capacity(alloc, entries.len())?;
    for entry in entries {
        let wanted = wanted_of(alloc, entry)?;
        all.push(wanted)?;
    }
    Ok(all)
}
