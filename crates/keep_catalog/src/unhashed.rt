use crate::listings::Listings;
use crate::spot::{Listing, PackedBlob};
use crate::stored::Stored;
use crate::tables::Tables;
use keep_names::BlobId;
use std::alloc::{AllocError, Global};

/// The places that weren't hashed before, in their order.
pub(crate) fn unhashed(alloc: Global, stored: &Stored) -> Result<Vec<PackedBlob>, AllocError> {
    let mut places = Vec::new(alloc);
    for (place, is_honest) in stored {
        if is_honest.is_none() {
            places.push(*place)?;
        }
    }
    Ok(places)
}

/// Those among them where an index lists one of these blobs.
pub(crate) fn unhashed_of(
    alloc: Global,
    tables: &Tables,
    blobs: &[BlobId],
) -> Result<Vec<PackedBlob>, AllocError> {
    let mut places = Vec::new(alloc);
    for blob in blobs {
        match tables.listed.get(blob) {
            None => {}
            Some(Listings::One(listing)) => add(&mut places, &tables.stored, *blob, *listing)?,
            Some(Listings::More(listings)) => {
                for listing in listings {
                    add(&mut places, &tables.stored, *blob, *listing)?;
                }
            }
        }
    }
    Ok(places)
}

/// Adds the blob's place at the listing, if a header has it and it wasn't hashed before.
fn add(
    places: &mut Vec<PackedBlob>,
    stored: &Stored,
    blob: BlobId,
    listing: Listing,
) -> Result<(), AllocError> {
    let place = PackedBlob {
        blob,
        spot: listing.spot,
    };
    if let Some(None) = stored.get(&place).copied() {
        places.push(place)?;
    }
    Ok(())
}
