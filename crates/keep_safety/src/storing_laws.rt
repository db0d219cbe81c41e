ghost use Rattle.std.specs.Prelude.{◌≡◌, true, List, map};
ghost use Rattle.std.specs.List.{list_any};
ghost use Rattle.keep_names.specs.declared.blob.BlobId as the_blob;
ghost use Rattle.keep_catalog.specs.Orders.{blob_eq};
ghost use Rattle.keep_repo.specs.Repository.{Repository};
ghost use Rattle.keep_build.specs.Blobs.{BlobData, blob_id_of};
ghost use Rattle.keep_build.specs.Packs.{packs_of};
ghost use Rattle.keep_safety.specs.Cut.{AreCut};
ghost use Rattle.keep_safety.specs.Kept.{IsKept};
ghost use Rattle.keep_safety.specs.SafeBackup.{StoringGives};

use keep_index::written_indexes_read_back;
use keep_names::{digests_are_ids, orders_tell_apart};
use keep_pack::{built_packs_are_honest, headers_are_read};
use keep_plan::each_built_file_is_stored;
use keep_sound::{built_files_support_their_blobs, recorded_uses_give_their_blobs};

/// New blobs are cut into packs where one has 16,777,216 bytes: together the packs are the blobs in their
/// order, no pack has so many before its last blob, and each but the last pack has them.
pub fn packs_are_cut_when_full()
    ensures { (blobs : List BlobData) → AreCut blobs (packs_of blobs) }
{}

/// Each blob that is offered is in one of the built packs, or has a chosen place; then its pack and the index
/// that lists it are to be present, and the pack unmarked.
pub fn each_blob_is_kept()
    ensures { (r : Repository) (blobs : List BlobData) (name : the_blob.BlobId)
        → list_any (blob_eq name) (map blob_id_of blobs) ≡ true → IsKept r blobs name }
{}

/// Wherever a change is made that has what storing blobs comes to, each of the blobs can be read after it: from a
/// pack that was built for it, or from the place where it was.
pub fn what_is_stored_is_given()
    ensures { StoringGives }
{
    digests_are_ids();
    orders_tell_apart();
    headers_are_read();
    built_packs_are_honest();
    written_indexes_read_back();
    each_built_file_is_stored();
    recorded_uses_give_their_blobs();
    built_files_support_their_blobs();
}
