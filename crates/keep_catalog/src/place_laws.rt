ghost use Rattle.std.specs.Prelude.{◌≡◌, ◌↔◌, Some, true, false};
ghost use Rattle.std.specs.FinMap as finite;
ghost use Rattle.std.specs.Option.{IsSome};
ghost use Rattle.std.specs.declared.cmp.Ordering.TheVariants.{Less};
ghost use Rattle.keep_names.specs.BlobId.{tree_at};
ghost use Rattle.keep_names.specs.declared.blob.BlobId as the_blob;
ghost use Rattle.keep_names.specs.declared.id.Id as the_id;
ghost use Rattle.keep_repo.specs.Repository.{Repository};
ghost use Rattle.keep_catalog.specs.Chosen.{IsChosen, IsLeastIndex, IsListed, IsStored};
ghost use Rattle.keep_catalog.specs.Naming.{blobs_named, missing, named_by, nodes_under};
ghost use Rattle.keep_catalog.specs.Orders.{IsLessSpot, spot_cmp};
ghost use Rattle.keep_catalog.specs.Places.{chosen_listing, is_honest, spots_of};
ghost use Rattle.keep_catalog.specs.declared.reach_error.ReachError.TheVariants.{MissingBlob, WrongHash};
ghost use Rattle.keep_catalog.specs.declared.spot.Spot as the_spot;

use crate::live_repo::LiveRepo;

/// The chosen place of a blob is the least of its places in unmarked packs: an index lists it, the header of
/// its pack has it, and its bytes have the blob's id. The index is the least-named one that lists it. Where
/// none is chosen, there is no such place.
pub fn the_chosen_place_is_least()
    ensures { (r : Repository) (blob : the_blob.BlobId) → IsChosen r blob (chosen_listing r blob) }
{}

/// A blob's spots are just those at which an index lists it and the header of the pack has it, each with the
/// least-named index that lists it there.
pub fn spots_are_listed_and_stored()
    ensures listed { (r : Repository) (blob : the_blob.BlobId) (spot : the_spot.Spot) (index : the_id.Id)
        → finite.get (spots_of r blob) spot ≡ Some index → IsListed r blob spot index }
    ensures stored { (r : Repository) (blob : the_blob.BlobId) (spot : the_spot.Spot) (index : the_id.Id)
        → finite.get (spots_of r blob) spot ≡ Some index → IsStored r blob spot }
    ensures least { (r : Repository) (blob : the_blob.BlobId) (spot : the_spot.Spot) (index : the_id.Id)
        → finite.get (spots_of r blob) spot ≡ Some index → IsLeastIndex r blob spot index }
    ensures kept { (r : Repository) (blob : the_blob.BlobId) (spot : the_spot.Spot) (index : the_id.Id)
        → IsListed r blob spot index → IsStored r blob spot → IsSome (finite.get (spots_of r blob) spot) }
{}

/// A blob that has no chosen place has another hash where an index lists it, the header has it there, and no
/// such bytes have its id. Else it is missing: nothing has it, or packs with marks alone have it.
pub fn a_wrong_hash_is_not_missing()
    ensures wrong { (r : Repository) (blob : the_blob.BlobId) (spot : the_spot.Spot) (index : the_id.Id)
        → IsListed r blob spot index → IsStored r blob spot
        → ((other : the_spot.Spot) (by : the_id.Id) → IsListed r blob other by → IsStored r blob other
        → is_honest r blob other ≡ false)
        → missing r blob ≡ WrongHash blob.id }
    ensures honest { (r : Repository) (blob : the_blob.BlobId) (spot : the_spot.Spot) (index : the_id.Id)
        → IsListed r blob spot index → IsStored r blob spot → is_honest r blob spot ≡ true
        → missing r blob ≡ MissingBlob blob.id }
    ensures nowhere { (r : Repository) (blob : the_blob.BlobId)
        → ((spot : the_spot.Spot) (index : the_id.Id) → IsListed r blob spot index → ¬ IsStored r blob spot)
        → missing r blob ≡ MissingBlob blob.id }
{}

/// Spots are in order by pack, then by offset, then by length.
pub fn spots_are_in_order()
    ensures { (a : the_spot.Spot) (b : the_spot.Spot) → (spot_cmp a b ≡ Less) ↔ IsLessSpot a b }
{}

/// A tree names what its nodes name, and can't be had where they can't.
pub fn trees_name_what_their_nodes_name()
    ensures { (r : Repository) (tree : the_id.Id)
        → named_by r (tree_at tree) ≡ blobs_named (nodes_under r tree) }
{}

/// A live repository can be handed to another thread, and lent to several at once.
pub fn live_repos_cross_threads() {
    cross::<LiveRepo>()
}

/// What can be handed to another thread, and lent to several at once.
fn cross<T: Send + Sync>() {}
