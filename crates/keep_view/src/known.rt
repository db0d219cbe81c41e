ghost use Rattle.std.specs.Prelude.{◌≡◌, ◌<◌, ◌||◌, IfOk, OnOk};
ghost use Rattle.std.specs.BTreeSet.{contains};
ghost use Rattle.std.specs.FinSet as set;
ghost use Rattle.keep_names.specs.Orders.{id_cmp};
ghost use Rattle.keep_names.specs.declared.id.Id as the_id;
ghost use Rattle.keep_repo.specs.Facet.{facet_eq};
ghost use Rattle.keep_repo.specs.declared.facet.Facet.TheVariants.{File};
ghost use Rattle.keep_journal.specs.History.{final_number};
ghost use Rattle.keep_journal.specs.Kept.{unfinal};
ghost use Rattle.keep_journal.specs.Opening.{IsOpen, opening_under};
ghost use Rattle.keep_view.specs.Shown.{known_of};
ghost use Rattle.keep_view.specs.Telling.{has_snapshot, is_told_by, snapshot_file};

use keep_change::StoredFile;
use keep_journal::History;
use keep_names::{FileName, Id, Kind};
use keep_repo::Repo;
use std::alloc::{AllocError, Global};
use std::collections::BTreeSet;

/// The snapshots that are known under this history and live repository.
///
/// No opening is kept: a snapshot of it is in the live repository, or a change in force that isn't final
/// dropped it.
pub(crate) fn known_snapshots(
    alloc: Global,
    history: &History,
    live: &Repo,
) -> Result<BTreeSet<Id>, AllocError>
    requires { let opening = opening_under history.now.journal live.now in
        IsOpen opening history.now.journal live.now }
    ensures { let opening = opening_under history.now.journal live.now in
        IfOk result (λ known. set.from_list known.keys ≡ known_of opening (unfinal history.now.journal)) }
{
    let ids = live.ids(Kind::Snapshot)?;
    let mut known: BTreeSet<Id> = ids.into_iter().collect(alloc)?;
    for before in history.final_number()..history.last_change() {
        learn_change(&mut known, history, before + 1)?;
    }
    Ok(known)
}

/// Learns what change n, which isn't final, tells of: what it adds, and what it drops where it is in force.
fn learn_change(known: &mut BTreeSet<Id>, history: &History, n: u64) -> Result<(), AllocError>
    requires { final_number history.now.journal < n }
    ensures { OnOk result ((id : the_id.Id) → contains id_cmp known.new id
        ≡ (contains id_cmp known.old id || is_told_by history.now.journal n id)) }
{
    if let Some(change) = history.change(n) {
        learn_files(known, change.adds.as_slice())?;
    }
    if let Some(change) = history.kept_change(n) {
        learn_files(known, change.drops.as_slice())?;
    }
    Ok(())
}

fn learn_files(known: &mut BTreeSet<Id>, files: &[StoredFile]) -> Result<(), AllocError>
    ensures { OnOk result ((id : the_id.Id) → contains id_cmp known.new id
        ≡ (contains id_cmp known.old id || has_snapshot files.now id)) }
{
    for file in files {
        learn(known, file.name())?;
    }
    Ok(())
}

/// Learns the name, if it is a snapshot's.
fn learn(known: &mut BTreeSet<Id>, name: FileName) -> Result<(), AllocError>
    ensures { OnOk result ((id : the_id.Id) → contains id_cmp known.new id
        ≡ (contains id_cmp known.old id || facet_eq (snapshot_file id) (File name))) }
{
    if name.kind == Kind::Snapshot {
        known.insert(name.id)?;
    }
    Ok(())
}
