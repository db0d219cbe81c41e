ghost use Rattle.std.specs.Prelude.{◌≡◌, ◌&&◌, false, true, None, OnOk, if◌then◌else◌};
ghost use Rattle.std.specs.BTreeMap.{IsOrdered};
ghost use Rattle.std.specs.Option.{option_map, option_or};
ghost use Rattle.keep_names.specs.Orders.{id_cmp};
ghost use Rattle.keep_names.specs.declared.blob.BlobId as the_blob;
ghost use Rattle.keep_names.specs.declared.id.Id as the_id;
ghost use Rattle.keep_catalog.specs.Kept.{lists_at, packs_at, places_said, said_view};
ghost use Rattle.keep_catalog.specs.Orders.{same_id};
ghost use Rattle.keep_catalog.specs.Places.{at, is_among};
ghost use Rattle.keep_catalog.specs.declared.spot.Listing as the_listing;

use crate::listed::{Listed, list, unlist};
use keep_index::IndexedPack;
use keep_names::Id;
use std::alloc::{AllocError, Global};
use std::collections::BTreeMap;

/// What each index that can be read says of packs, by name.
pub(crate) type Indexes = BTreeMap<Id, Vec<IndexedPack>>;

/// Lists what an index says, and keeps it, if the index can be read.
pub(crate) fn put_index(
    alloc: Global,
    listed: &mut Listed,
    indexes: &mut Indexes,
    index: Id,
    packs: Option<Vec<IndexedPack>>,
) -> Result<(), AllocError>
    ensures listed { OnOk result ((blob : the_blob.BlobId) (l : the_listing.Listing)
        → lists_at listed.new blob l
        ≡ if same_id index l.index && is_among (places_said (option_map said_view packs)) (at blob l.spot)
        then true else lists_at listed.old blob l) }
    ensures kept { OnOk result ((q : the_id.Id) → packs_at indexes.new q
        ≡ option_or (if same_id index q then option_map said_view packs else None) (packs_at indexes.old q)) }
    ensures ordered { OnOk result (IsOrdered id_cmp indexes.old → IsOrdered id_cmp indexes.new) }
{
    if let Some(packs) = packs {
        list(alloc, listed, index, &packs)?;
        indexes.insert(index, packs)?;
    }
    Ok(())
}

/// Takes out what is kept of an index, and what it lists.
pub(crate) fn remove_index(
    listed: &mut Listed,
    indexes: &mut Indexes,
    index: Id,
) -> Result<(), AllocError>
    ensures listed { OnOk result ((blob : the_blob.BlobId) (l : the_listing.Listing)
        → lists_at listed.new blob l
        ≡ if same_id index l.index && is_among (places_said (packs_at indexes.old index)) (at blob l.spot)
        then false else lists_at listed.old blob l) }
    ensures taken { OnOk result ((q : the_id.Id) → packs_at indexes.new q
        ≡ if same_id index q then None else packs_at indexes.old q) }
    ensures ordered { OnOk result (IsOrdered id_cmp indexes.old → IsOrdered id_cmp indexes.new) }
{
    let Some(packs) = indexes.remove(&index) else {
        return Ok(());
    };
    unlist(listed, index, &packs)?;
    Ok(())
}
