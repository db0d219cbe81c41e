ghost use Rattle.keep_safety.specs.Safe.{ArchivesAreShort, LastIsSafe, PartIsSafe, TagsAreTexts};

use crate::what_is_stored_is_given;
use keep_names::{digests_are_ids, orders_tell_apart};
use keep_plan::each_use_is_recorded;
use keep_snap::snapshots_read_back;
use keep_sound::{
    backing_up_is_safe, careful_changes_are_safe, covering_changes_are_careful,
    recorded_uses_give_their_blobs,
};

/// The change of a part keeps every sound repository sound, whenever it is made: it only adds packs and their index.
pub fn a_part_is_safe()
    ensures { PartIsSafe }
{
    orders_tell_apart();
    covering_changes_are_careful();
    careful_changes_are_safe();
}

/// The last change keeps every sound repository sound, whenever it is made, if all blobs that the new snapshot reaches
/// were named, or are left to be stored.
pub fn the_last_change_is_safe()
    ensures { LastIsSafe }
{
    digests_are_ids();
    orders_tell_apart();
    snapshots_read_back();
    what_is_stored_is_given();
    each_use_is_recorded();
    recorded_uses_give_their_blobs();
    backing_up_is_safe();
}

/// What an archive holds are short blobs, and tags are texts.
pub fn archives_are_texts()
    ensures short { ArchivesAreShort }
    ensures tags { TagsAreTexts }
{}
