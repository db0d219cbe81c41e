ghost use Rattle.std.specs.Prelude.{◌≡◌, ◌≢◌, [], Err, IfOk, IsOk, OnOk, false, map};
ghost use Rattle.keep_catalog.specs.declared.reach_error.ReachError.TheVariants as the_reach_error;
ghost use Rattle.keep_nodes.specs.Listed.{whole_nodes_due};
ghost use Rattle.keep_putting.specs.Careful.{IsCarefulFrom};
ghost use Rattle.keep_putting.specs.declared.restored.PutError.TheVariants.{NotEmpty};
ghost use Rattle.keep_read.specs.declared.restore_error.RestoreError as the_refusal;
ghost use Rattle.keep_read.specs.declared.restore_error.RestoreError.TheVariants.{Reach};
ghost use Rattle.keep_restores.specs.Restoring.{IsPutBack};
ghost use Rattle.keep_restores.specs.declared.not_restored.NotRestored.TheVariants.{Put, Snapshot};
ghost use Rattle.keep_patterns.specs.Parsing.{pattern_view};

use crate::chosen_entries::chosen;
use crate::not_restored::NotRestored;
use crate::stored_pieces::Stored;
use crate::wanting::wanted_for;
use keep_names::Id;
use keep_nodes::whole_nodes_of;
use keep_patterns::Pattern;
use keep_putting::{Restored, put_back};
use keep_targets::{Owner, Target};
use keep_view::View;
use std::alloc::Global;

/// Puts the snapshot of this name back into a new folder: all of it, or with patterns what one of them matches, all
/// that is below that, and the folders on the way.
///
/// A snapshot of which something can't be had is refused before anything is done, and then a folder in which something
/// was. What can't be put as it is wanted is named, and the rest is put. Files are written a piece at a time, from the
/// repository's own bytes.
pub fn restore<T: Target>(
    alloc: Global,
    view: &View,
    snapshot: Id,
    include: &[Pattern],
    caller: Owner,
    target: &mut T,
) -> Result<Restored, NotRestored>
    requires { T.calls target.old ≡ [] }
    ensures careful { IsCarefulFrom [] (T.calls target.new) }
    ensures refused { (why : the_refusal.RestoreError) → result ≡ Err (Snapshot why)
        → why ≢ Reach the_reach_error.Memory → whole_nodes_due view.now.repo snapshot ≡ Err why }
    ensures untouched { (why : the_refusal.RestoreError) → result ≡ Err (Snapshot why)
        → T.calls target.new ≡ [] }
    ensures full { T.is_new target.old ≡ false → OnOk result ⊥ × (T.calls target.new ≡ []) }
    ensures told { result ≡ Err (Put NotEmpty)
        → (T.is_new target.old ≡ false) × IsOk (whole_nodes_due view.now.repo snapshot) }
    ensures restored { IfOk result (λ restored. IsPutBack view.now.repo snapshot
        (map pattern_view include.now) caller (T.calls target.new) restored) }
{
    let entries = whole_nodes_of(alloc, view, snapshot)?;
    let found = chosen(alloc, &entries, include)?;
    let wanted = wanted_for(alloc, &found)?;
    let catalog = view.read_past(alloc)?;
    let stored = Stored { catalog: &catalog };
    let restored = put_back(alloc, target, &stored, caller, &wanted)?;
    Ok(restored)
}
