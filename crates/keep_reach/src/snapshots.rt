ghost use Rattle.std.specs.Prelude.{◌≡◌, ◌≢◌, ◌++◌, ◌↔◌, [], None, Some, IfErr, IfOk, OnOk};
ghost use Rattle.std.specs.Prelude.{option_map, option_to_list, slice_get};
ghost use Rattle.std.specs.BTreeMap.{IsOrdered};
ghost use Rattle.std.specs.BTreeMap as tree;
ghost use Rattle.std.specs.List.{filter_map};
ghost use Rattle.keep_names.specs.Orders.{blob_cmp};
ghost use Rattle.keep_names.specs.declared.blob.BlobId as the_blob;
ghost use Rattle.keep_snap.specs.Snap.{snap_view};
ghost use Rattle.keep_catalog.specs.Naming.{named_by};
ghost use Rattle.keep_catalog.specs.Places.{chosen_listing};
ghost use Rattle.keep_catalog.specs.Kept.{snap_at};
ghost use Rattle.keep_reach.specs.Snapshots.{IsOwedByOne, IsUsed, Owes, broken_in};
ghost use Rattle.keep_reach.specs.Snapshots.{refusal_from, refusal_of, refusals_of, root_of};
ghost use Rattle.keep_reach.specs.Used.{used_in};
ghost use Rattle.keep_reach.specs.Walk.{AreChosen, HaveHeights, IsWalked, Knows};
ghost use Rattle.keep_catalog.specs.declared.reach_error.ReachError.TheVariants.{Memory};

use crate::reach_walk::{levels, walk, walk_all};
use crate::reached_blobs::Reached;
use keep_catalog::{Catalog, ReachError};
use keep_names::{BlobId, Id};
use keep_snap::Snap;
use std::alloc::{AllocError, Global};
use std::collections::BTreeMap;

/// What the snapshot of this name reaches: its root tree at level 1, and what trees name down to level
/// 256. It is nothing where no snapshot that can be read has the name. Else the first refusal, depth first.
pub fn reach(alloc: Global, catalog: &Catalog, snapshot: Id) -> Result<Reached, ReachError>
    ensures reached { IfOk result (λ reached. (blob : the_blob.BlobId)
        → Knows reached blob ↔ Owes catalog.now snapshot blob) }
    ensures places { IfOk result (AreChosen (chosen_listing catalog.now)) }
    ensures heights { IfOk result (HaveHeights (named_by catalog.now)) }
    ensures all { IfOk result (λ _. refusal_of catalog.now snapshot ≡ None) }
    ensures refused { IfErr result (λ error. error ≢ Memory → refusal_of catalog.now snapshot ≡ Some error) }
{
    reach_all(alloc, catalog, &[snapshot])
}

/// What the snapshots that can be read reach, all together, in the blobs' order. Else the first refusal of
/// the first snapshot by name that has one.
pub fn used(alloc: Global, catalog: &Catalog) -> Result<Reached, ReachError>
    ensures reached { IfOk result (λ reached. (blob : the_blob.BlobId)
        → Knows reached blob ↔ IsUsed catalog.now blob) }
    ensures listed { IfOk result (λ reached. tree.keys reached ≡ used_in catalog.now) }
    ensures places { IfOk result (AreChosen (chosen_listing catalog.now)) }
    ensures heights { IfOk result (HaveHeights (named_by catalog.now)) }
    ensures all { IfOk result (λ _. broken_in catalog.now ≡ []) }
    ensures refused { IfErr result (λ error. error ≢ Memory
        → option_map (λ b. b.1) (slice_get (broken_in catalog.now) 0) ≡ Some error) }
{
    let snapshots = snapshot_names(alloc, catalog.snaps())?;
    reach_all(alloc, catalog, &snapshots)
}

/// What the snapshots of these names reach, all together. Each tree is read once, however many of them reach
/// it. Else the first refusal of the first of them that has one.
pub fn reach_all(alloc: Global, catalog: &Catalog, snapshots: &[Id]) -> Result<Reached, ReachError>
    ensures reached { IfOk result (λ reached. (blob : the_blob.BlobId)
        → Knows reached blob ↔ IsOwedByOne catalog.now snapshots.now blob) }
    ensures ordered { IfOk result (IsOrdered blob_cmp) }
    ensures places { IfOk result (AreChosen (chosen_listing catalog.now)) }
    ensures heights { IfOk result (HaveHeights (named_by catalog.now)) }
    ensures all { IfOk result (λ _. refusals_of catalog.now snapshots.now ≡ []) }
    ensures refused { IfErr result (λ error. error ≢ Memory
        → slice_get (refusals_of catalog.now snapshots.now) 0 ≡ Some error) }
{
    let roots = roots(alloc, catalog.snaps(), snapshots)?;
    let mut walked = BTreeMap::new(alloc);
    walk_all(alloc, catalog, &roots, levels(), &mut walked)?;
    Ok(walked)
}

/// The snapshots that can be read and don't reach all that they name, by name, each with its first
/// refusal, depth first. What was walked for one is known for the next, unless it was refused.
pub fn broken(alloc: Global, catalog: &Catalog) -> Result<Vec<(Id, ReachError)>, AllocError>
    ensures { IfOk result (λ broken. broken.items ≡ broken_in catalog.now) }
{
    broken_among(alloc, catalog, catalog.snaps())
}

/// Those of these snapshots that have a refusal, by name.
fn broken_among(
    alloc: Global,
    catalog: &Catalog,
    snaps: &BTreeMap<Id, Snap>,
) -> Result<Vec<(Id, ReachError)>, AllocError>
    ensures { IfOk result (λ broken. broken.items ≡ filter_map (λ e. option_map (λ why. (e.0, why))
        (refusal_from catalog.now (root_of (snap_view e.1)))) snaps.now.entries) }
{
    let mut walked = BTreeMap::new(alloc);
    let mut broken = Vec::new(alloc);
    for (name, snap) in snaps {
        let why = refusal(alloc, catalog, root(snap), &mut walked)?;
        note_broken(&mut broken, *name, why)?;
    }
    Ok(broken)
}

/// The root tree of a snapshot.
fn root(snap: &Snap) -> BlobId
    ensures { result ≡ root_of (snap_view snap.now) }
{
    BlobId::tree(snap.tree)
}

/// The names of snapshots, in order.
fn snapshot_names(alloc: Global, snaps: &BTreeMap<Id, Snap>) -> Result<Vec<Id>, AllocError>
    ensures { IfOk result (λ names. names.items ≡ tree.keys snaps.now) }
{
    snaps.keys().copied().collect(alloc)
}

/// The root trees of those of the snapshots that there are.
fn roots(
    alloc: Global,
    snaps: &BTreeMap<Id, Snap>,
    snapshots: &[Id],
) -> Result<Vec<BlobId>, AllocError>
    ensures { IfOk result (λ roots. roots.items
        ≡ filter_map (λ name. option_map root_of (snap_at snaps.now name)) snapshots.now) }
{
    let mut roots = Vec::new(alloc);
    for snapshot in snapshots {
        add_root(&mut roots, snaps, *snapshot)?;
    }
    Ok(roots)
}

/// Adds the root tree of a snapshot, if there is one.
fn add_root(
    roots: &mut Vec<BlobId>,
    snaps: &BTreeMap<Id, Snap>,
    snapshot: Id,
) -> Result<(), AllocError>
    ensures { OnOk result (roots.new.items
        ≡ roots.old.items ++ option_to_list (option_map root_of (snap_at snaps.now snapshot))) }
{
    if let Some(snap) = snaps.get(&snapshot) {
        roots.push(root(snap))?;
    }
    Ok(())
}

/// The first refusal from this root, after others were walked.
fn refusal(
    alloc: Global,
    catalog: &Catalog,
    root: BlobId,
    walked: &mut Reached,
) -> Result<Option<ReachError>, AllocError>
    requires { IsWalked (named_by catalog.now) (chosen_listing catalog.now) walked.old }
    ensures why { IfOk result (λ why. why ≡ refusal_from catalog.now root) }
    ensures after { IsWalked (named_by catalog.now) (chosen_listing catalog.now) walked.new }
{
    match walk(alloc, catalog, root, levels(), walked) {
        Ok(_) => Ok(None),
        Err(ReachError::Memory) => Err(AllocError),
        Err(why) => Ok(Some(why)),
    }
}

/// Adds a snapshot that has a refusal.
fn note_broken(
    broken: &mut Vec<(Id, ReachError)>,
    name: Id,
    why: Option<ReachError>,
) -> Result<(), AllocError>
    ensures { OnOk result (broken.new.items
        ≡ broken.old.items ++ option_to_list (option_map (λ error. (name, error)) why)) }
{
    if let Some(error) = why {
        broken.push((name, error))?;
    }
    Ok(())
}
