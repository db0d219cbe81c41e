ghost use Rattle.std.specs.Prelude.{◌≡◌, ◌≢◌, ◌<◌, ◌≤◌, Some, IfErr, IfOk, OnOk};
ghost use Rattle.keep_catalog.specs.Naming.{named_by};
ghost use Rattle.keep_catalog.specs.Places.{chosen_listing};
ghost use Rattle.keep_reach.specs.Reach.{first_of, most_levels, refusal_at};
ghost use Rattle.keep_reach.specs.Walk.{Grew, GrewAll, HasHeight, HaveHeight, IsWalked, Knows, KnowsAll};
ghost use Rattle.keep_catalog.specs.declared.reach_error.ReachError.TheVariants.{Memory};

use crate::reached_blobs::{Reached, ReachedBlob};
use keep_catalog::{Catalog, ReachError};
use keep_names::{BlobId, BlobType};
use std::alloc::Global;

/// How deep trees may stand: the root is at level 1.
pub fn levels() -> u16
    ensures value { result ≡ most_levels }
    ensures fits { result < 65535 }
{
    256
}

/// Walks over what the blob reaches, with this many levels of trees left, and tells its height.
#[cycle(walking)]
pub(crate) fn walk(
    alloc: Global,
    catalog: &Catalog,
    blob: BlobId,
    levels: u16,
    walked: &mut Reached,
) -> Result<u16, ReachError>
    requires fits { levels < 65535 }
    requires before { IsWalked (named_by catalog.now) (chosen_listing catalog.now) walked.old }
    ensures height { IfOk result (λ height. HasHeight (named_by catalog.now) blob height) }
    ensures within { IfOk result (λ height. height ≤ levels) }
    ensures known { OnOk result (Knows walked.new blob) }
    ensures after { IsWalked (named_by catalog.now) (chosen_listing catalog.now) walked.new }
    ensures grew { OnOk result (Grew (named_by catalog.now) levels blob walked.old walked.new) }
    ensures refused { IfErr result (λ error. error ≢ Memory
        → refusal_at (named_by catalog.now) levels blob ≡ Some error) }
{
    if let Some(found) = walked.get(&blob).copied() {
        if found.height > levels {
            return Err(ReachError::TooDeep);
        }
        return Ok(found.height);
    }
    match blob.blob_type {
        BlobType::Content => {
            let named = catalog.named(alloc, blob)?;
            let found = ReachedBlob {
                height: 0,
                spot: named.spot,
                index: named.index,
            };
            walked.insert(blob, found)?;
            Ok(0)
        }
        BlobType::Tree => {
            if levels == 0 {
                return Err(ReachError::TooDeep);
            }
            let named = catalog.named(alloc, blob)?;
            let below = walk_all(alloc, catalog, &named.names, levels - 1, walked)?;
            let found = ReachedBlob {
                height: below + 1,
                spot: named.spot,
                index: named.index,
            };
            walked.insert(blob, found)?;
            Ok(below + 1)
        }
    }
}

/// Walks over what each of the blobs reaches, in their order, and tells their greatest height.
#[cycle(walking)]
pub(crate) fn walk_all(
    alloc: Global,
    catalog: &Catalog,
    blobs: &[BlobId],
    levels: u16,
    walked: &mut Reached,
) -> Result<u16, ReachError>
    requires fits { levels < 65535 }
    requires before { IsWalked (named_by catalog.now) (chosen_listing catalog.now) walked.old }
    ensures height { IfOk result (λ height. HaveHeight (named_by catalog.now) blobs.now height) }
    ensures within { IfOk result (λ height. height ≤ levels) }
    ensures known { OnOk result (KnowsAll walked.new blobs.now) }
    ensures after { IsWalked (named_by catalog.now) (chosen_listing catalog.now) walked.new }
    ensures grew { OnOk result (GrewAll (named_by catalog.now) levels blobs.now walked.old walked.new) }
    ensures refused { IfErr result (λ error. error ≢ Memory
        → first_of (refusal_at (named_by catalog.now) levels) blobs.now ≡ Some error) }
{
    let mut highest = 0u16;
    for blob in blobs {
        let height = walk(alloc, catalog, *blob, levels, walked)?;
        highest = highest.max(height);
    }
    Ok(highest)
}
