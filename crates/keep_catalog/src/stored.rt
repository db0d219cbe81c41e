ghost use Rattle.std.specs.Prelude.{◌≡◌, map, OnOk, None, Some, if◌then◌else◌};
ghost use Rattle.std.specs.BTreeMap as tree;
ghost use Rattle.keep_catalog.specs.Orders.{packed_blob_cmp};
ghost use Rattle.keep_catalog.specs.Places.{is_among, packed_of};
ghost use Rattle.keep_catalog.specs.declared.spot.PackedBlob as the_packed_blob;

use crate::spot::PackedBlob;
use keep_names::{Blob, Id};
use std::alloc::AllocError;
use std::collections::BTreeMap;

/// The places that headers have, each with whether it is honest, where that was hashed.
pub(crate) type Stored = BTreeMap<PackedBlob, Option<bool>>;

/// Adds what a pack's header has.
pub(crate) fn store(stored: &mut Stored, pack: Id, entries: &[Blob]) -> Result<(), AllocError>
    ensures { OnOk result ((p : the_packed_blob.PackedBlob) → tree.get packed_blob_cmp stored.new p
        ≡ if is_among (map (packed_of pack) entries.now) p then Some None
        else tree.get packed_blob_cmp stored.old p) }
{
    for entry in entries {
        stored.insert(PackedBlob::of(pack, *entry), None)?;
    }
    Ok(())
}

/// Removes what a pack's header has.
pub(crate) fn unstore(stored: &mut Stored, pack: Id, entries: &[Blob])
    ensures { (p : the_packed_blob.PackedBlob) → tree.get packed_blob_cmp stored.new p
        ≡ if is_among (map (packed_of pack) entries.now) p then None
        else tree.get packed_blob_cmp stored.old p }
{
    for entry in entries {
        stored.remove(&PackedBlob::of(pack, *entry));
    }
}
