ghost use Rattle.std.specs.Prelude.{◌≡◌, ◌↔◌, ◌++◌, IfOk, IsTrue, OnOk, map};
ghost use Rattle.keep_catalog.specs.declared.reach_error.ReachError.TheVariants.{Memory};
ghost use Rattle.keep_nodes.specs.Entries.{entry_view};
ghost use Rattle.keep_read.specs.declared.restore_error.RestoreError.TheVariants.{Reach};
ghost use Rattle.keep_looks.specs.Shown.{nodes_had, unlisted_of};

use crate::unlisted::Unlisted;
use keep_catalog::ReachError;
use keep_names::Id;
use keep_nodes::{PathNode, nodes_of};
use keep_read::RestoreError;
use keep_view::View;
use std::alloc::{AllocError, Global};

/// The nodes of the snapshot. One that can't be listed has none, and is put to the others that can't.
pub(crate) fn nodes_or_none(
    alloc: Global,
    view: &View,
    snapshot: Id,
    unlisted: &mut Vec<Unlisted>,
) -> Result<Vec<PathNode>, AllocError>
    ensures nodes { IfOk result (λ entries. map entry_view entries.items ≡ nodes_had view.now.repo snapshot) }
    ensures unlisted { OnOk result (unlisted.new.items ≡ unlisted.old.items ++ unlisted_of view.now.repo snapshot) }
{
    match nodes_of(alloc, view, snapshot) {
        Ok(entries) => Ok(entries),
        Err(why) => {
            if is_memory(why) {
                return Err(AllocError);
            }
            unlisted.push(Unlisted { snapshot, why })?;
            Ok(Vec::new(alloc))
        }
    }
}

fn is_memory(why: RestoreError) -> bool
    ensures { IsTrue result ↔ (why ≡ Reach Memory) }
{
    matches!(why, RestoreError::Reach(ReachError::Memory))
}
