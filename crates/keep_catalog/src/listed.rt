ghost use Rattle.std.specs.Prelude.{◌≡◌, ◌&&◌, false, true, map, OnOk, if◌then◌else◌};
ghost use Rattle.std.specs.List.{flat_map};
ghost use Rattle.keep_index.specs.Index.{pack_view};
ghost use Rattle.keep_names.specs.declared.blob.BlobId as the_blob;
ghost use Rattle.keep_catalog.specs.Kept.{lists_at};
ghost use Rattle.keep_catalog.specs.Orders.{packed_blob_eq, same_id};
ghost use Rattle.keep_catalog.specs.Places.{at, is_among, listed_of};
ghost use Rattle.keep_catalog.specs.declared.spot.Listing as the_listing;

use crate::listings::Listings;
use crate::spot::{Listing, PackedBlob};
use keep_index::IndexedPack;
use keep_names::{BlobId, Id};
use std::alloc::{AllocError, Global};
use std::collections::BTreeMap;

/// Where indexes list blobs: the listings by blob.
pub(crate) type Listed = BTreeMap<BlobId, Listings>;

/// Adds what an index says of these packs.
pub(crate) fn list(
    alloc: Global,
    listed: &mut Listed,
    index: Id,
    packs: &[IndexedPack],
) -> Result<(), AllocError>
    ensures { OnOk result ((blob : the_blob.BlobId) (l : the_listing.Listing)
        → lists_at listed.new blob l
        ≡ if same_id index l.index && is_among (flat_map listed_of (map pack_view packs.now)) (at blob l.spot)
        then true else lists_at listed.old blob l) }
{
    for pack in packs {
        list_pack(alloc, listed, index, pack)?;
    }
    Ok(())
}

/// Adds what an index says of a pack.
fn list_pack(
    alloc: Global,
    listed: &mut Listed,
    index: Id,
    pack: &IndexedPack,
) -> Result<(), AllocError>
    ensures { OnOk result ((blob : the_blob.BlobId) (l : the_listing.Listing)
        → lists_at listed.new blob l
        ≡ if same_id index l.index && is_among (listed_of (pack_view pack.now)) (at blob l.spot)
        then true else lists_at listed.old blob l) }
{
    for entry in &pack.blobs {
        list_place(alloc, listed, index, PackedBlob::of(pack.id, *entry))?;
    }
    Ok(())
}

/// Adds an index's listing of a place.
fn list_place(
    alloc: Global,
    listed: &mut Listed,
    index: Id,
    place: PackedBlob,
) -> Result<(), AllocError>
    ensures { OnOk result ((blob : the_blob.BlobId) (l : the_listing.Listing)
        → lists_at listed.new blob l
        ≡ if same_id index l.index && packed_blob_eq (at blob l.spot) place
        then true else lists_at listed.old blob l) }
{
    let PackedBlob { blob, spot } = place;
    let listing = Listing { spot, index };
    let listings = match listed.remove(&blob) {
        Some(listings) => listings.with(alloc, listing)?,
        None => Listings::One(listing),
    };
    listed.insert(blob, listings)?;
    Ok(())
}

/// Removes what an index says of these packs.
pub(crate) fn unlist(
    listed: &mut Listed,
    index: Id,
    packs: &[IndexedPack],
) -> Result<(), AllocError>
    ensures { OnOk result ((blob : the_blob.BlobId) (l : the_listing.Listing)
        → lists_at listed.new blob l
        ≡ if same_id index l.index && is_among (flat_map listed_of (map pack_view packs.now)) (at blob l.spot)
        then false else lists_at listed.old blob l) }
{
    for pack in packs {
        unlist_pack(listed, index, pack)?;
    }
    Ok(())
}

/// Removes what an index says of a pack.
fn unlist_pack(listed: &mut Listed, index: Id, pack: &IndexedPack) -> Result<(), AllocError>
    ensures { OnOk result ((blob : the_blob.BlobId) (l : the_listing.Listing)
        → lists_at listed.new blob l
        ≡ if same_id index l.index && is_among (listed_of (pack_view pack.now)) (at blob l.spot)
        then false else lists_at listed.old blob l) }
{
    for entry in &pack.blobs {
        unlist_place(listed, index, PackedBlob::of(pack.id, *entry))?;
    }
    Ok(())
}

/// Removes an index's listing of a place. A blob without listings isn't kept.
fn unlist_place(listed: &mut Listed, index: Id, place: PackedBlob) -> Result<(), AllocError>
    ensures { OnOk result ((blob : the_blob.BlobId) (l : the_listing.Listing)
        → lists_at listed.new blob l
        ≡ if same_id index l.index && packed_blob_eq (at blob l.spot) place
        then false else lists_at listed.old blob l) }
{
    let PackedBlob { blob, spot } = place;
    let Some(listings) = listed.remove(&blob) else {
        return Ok(());
    };
    if let Some(left) = listings.without(Listing { spot, index }) {
        listed.insert(blob, left)?;
    }
    Ok(())
}
