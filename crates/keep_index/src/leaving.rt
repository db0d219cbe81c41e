ghost use Rattle.std.specs.Prelude.{◌≡◌, Bool, IfOk, List, [], if◌then◌else◌, map};
ghost use Rattle.std.specs.BTreeSet.{contains};
ghost use Rattle.keep_names.specs.Orders.{id_cmp};
ghost use Rattle.keep_names.specs.declared.id.Id as the_id;
ghost use Rattle.keep_index.specs.Index.{Fits, PackData, pack_view};
ghost use Rattle.keep_index.specs.Joining.{blobs_of, left_without};

use crate::index::IndexedPack;
use keep_names::Id;
use std::alloc::{AllocError, Global};
use std::collections::BTreeSet;

/// What is left of an index's packs without these, in the order given.
pub fn without_packs(
    alloc: Global,
    packs: &[IndexedPack],
    gone: &BTreeSet<Id>,
) -> Result<Vec<IndexedPack>, AllocError>
    ensures { IfOk result (λ left. map pack_view left.items
        ≡ left_without (contains id_cmp gone.now) (map pack_view packs.now)) }
{
    let mut left = Vec::new(alloc);
    for pack in packs {
        let is_gone = gone.contains(&pack.id);
        if !is_gone {
            let blobs = pack.blobs.to_vec(alloc)?;
            left.push(IndexedPack { id: pack.id, blobs })?;
        }
    }
    Ok(left)
}

/// What is left lists the blobs of the packs that aren't gone, and none of the others. What fits still fits.
pub fn what_is_left_is_listed()
    ensures listed { (is_gone : the_id.Id → Bool) (packs : List PackData) (id : the_id.Id)
        → blobs_of (left_without is_gone packs) id ≡ if is_gone id then [] else blobs_of packs id }
    ensures fits { (is_gone : the_id.Id → Bool) (packs : List PackData)
        → Fits packs → Fits (left_without is_gone packs) }
{}
