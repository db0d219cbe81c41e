ghost use Rattle.std.specs.Prelude.{◌≡◌, ◌↔◌, []};
ghost use Rattle.std.specs.List.{All, IsDistinct};
ghost use Rattle.std.specs.List.Sorted.{IsStrictlySortedBy};
ghost use Rattle.keep_names.specs.Orders.{blob_cmp};
ghost use Rattle.keep_names.specs.declared.blob.BlobId as the_blob;
ghost use Rattle.keep_repo.specs.Repository.{Repository};
ghost use Rattle.keep_catalog.specs.Orders.{blob_eq};
ghost use Rattle.keep_reach.specs.Reach.{HasBlob};
ghost use Rattle.keep_reach.specs.Snapshots.{IsUsed, broken_in};
ghost use Rattle.keep_reach.specs.Sound.{IsOfTree, IsSound};
ghost use Rattle.keep_reach.specs.Used.{used_in};

/// A repository in which no snapshot is broken is sound.
pub fn the_unbroken_is_sound()
    ensures { (r : Repository) → broken_in r ≡ [] → IsSound r }
{}

/// In a sound repository trees alone are refused: those that stand too deep, and those that aren't trees.
pub fn the_sound_is_broken_by_trees_alone()
    ensures { (r : Repository) → IsSound r → All (λ broken. IsOfTree broken.1) (broken_in r) }
{}

/// The list of used blobs has just the blobs that some snapshot reaches, each once, in their order.
pub fn used_blobs_are_listed_once()
    ensures used { (r : Repository) (blob : the_blob.BlobId) → HasBlob (used_in r) blob ↔ IsUsed r blob }
    ensures once { (r : Repository) → IsDistinct blob_eq (used_in r) }
    ensures ordered { (r : Repository) → IsStrictlySortedBy blob_cmp (used_in r) }
{}
