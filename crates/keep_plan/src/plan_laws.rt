ghost use Rattle.std.specs.Prelude.{◌≡◌, true, List, Some};
ghost use Rattle.std.specs.List.{list_any};
ghost use Rattle.keep_names.specs.declared.blob.BlobId as the_blob;
ghost use Rattle.keep_names.specs.declared.id.Id as the_id;
ghost use Rattle.keep_repo.specs.Repository.{Repository};
ghost use Rattle.keep_change.specs.Form.{AreNamedByBytes};
ghost use Rattle.keep_change.specs.NamedBytes.{NamedBytes};
ghost use Rattle.keep_catalog.specs.Orders.{blob_eq};
ghost use Rattle.keep_catalog.specs.Places.{chosen_listing};
ghost use Rattle.keep_catalog.specs.Words.{reach_number, reach_text};
ghost use Rattle.keep_catalog.specs.declared.reach_error.ReachError as the_reach;
ghost use Rattle.keep_catalog.specs.declared.spot.Spot as the_spot;
ghost use Rattle.keep_plan.specs.Refusal.{of_reach, plan_number, plan_text};
ghost use Rattle.keep_plan.specs.Storing.{CanBeMade, RecordsUse, StoresBuilt, stored_built};

/// What a reach refuses, a planner refuses by the same words and number.
pub fn refusals_keep_their_words()
    ensures words { (why : the_reach.ReachError) → plan_text (of_reach why) ≡ reach_text why }
    ensures numbers { (why : the_reach.ReachError) → plan_number (of_reach why) ≡ reach_number why }
{}

/// What becomes of built files that are named by their bytes, and what the uses of blobs where they are rest on,
/// can be made of the repository as part of a change.
pub fn what_is_stored_can_be_made()
    ensures { (r : Repository) (used : List the_blob.BlobId) (built : List NamedBytes)
        → AreNamedByBytes built → CanBeMade r (stored_built r used built) }
{}

/// Of each blob that is used where it is, the chosen place's pack and the index that lists it are to be present,
/// and the pack unmarked.
pub fn each_use_is_recorded()
    ensures { (r : Repository) (used : List the_blob.BlobId) (built : List NamedBytes) (blob : the_blob.BlobId)
        (place : the_spot.Spot × the_id.Id) → list_any (blob_eq blob) used ≡ true
        → chosen_listing r blob ≡ Some place → RecordsUse (stored_built r used built) place }
{}

/// Each built file is added, or was there and is to be present; and of each pack among them the mark is cleared, or
/// it had none and is to be unmarked.
pub fn each_built_file_is_stored()
    ensures { (r : Repository) (used : List the_blob.BlobId) (built : List NamedBytes)
        → StoresBuilt built (stored_built r used built) }
{}
