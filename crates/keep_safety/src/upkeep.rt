ghost use Rattle.keep_safety.specs.SafeMark.{MarkIsSafe, MarkIsStrict};
ghost use Rattle.keep_safety.specs.SafeReindexing.{HeadersFitAnIndex, RepairIsSafe, RepairsListPacks, RepairsListPlaces, SweepIsSafe, SweepsKeepPacks, SweepsKeepPlaces};

use keep_change::sorted_lists_are_well_formed;
use keep_index::{what_is_joined_is_listed, what_is_left_is_listed, written_indexes_read_back};
use keep_names::{names_are_ordered, orders_tell_apart};
use keep_pack::headers_are_read;
use keep_plan::{each_built_file_is_stored, each_use_is_recorded, what_is_stored_can_be_made};
use keep_reach::used_blobs_are_listed_once;
use keep_sound::{marking_is_safe, reindexing_is_safe};
use keep_upkeep::a_planned_mark_can_be_made;

/// What is left of the indexes that list a swept pack is listed anew, and nothing of swept packs.
pub fn what_a_sweep_lists()
    ensures places { SweepsKeepPlaces }
    ensures packs { SweepsKeepPacks }
{
    orders_tell_apart();
    what_is_left_is_listed();
    what_is_joined_is_listed();
}

/// The change that a sweep plans keeps every sound repository sound, whenever it is made: where a pack goes, it is
/// marked, and what the dropped indexes list of the others is listed anew.
pub fn a_planned_sweep_is_safe()
    ensures { SweepIsSafe }
{
    orders_tell_apart();
    names_are_ordered();
    what_a_sweep_lists();
    what_is_left_is_listed();
    what_is_joined_is_listed();
    written_indexes_read_back();
    what_is_stored_can_be_made();
    each_built_file_is_stored();
    sorted_lists_are_well_formed();
    reindexing_is_safe();
}

/// What the headers have which can be read is listed, and nothing else; and the index of it can be written.
pub fn what_a_repair_lists()
    ensures places { RepairsListPlaces }
    ensures packs { RepairsListPacks }
    ensures fits { HeadersFitAnIndex }
{
    orders_tell_apart();
    headers_are_read();
}

/// The change that a repair plans keeps every sound repository sound, whenever it is made: what the dropped indexes
/// list is listed anew, where its pack is there.
pub fn a_planned_repair_is_safe()
    ensures { RepairIsSafe }
{
    orders_tell_apart();
    names_are_ordered();
    what_a_repair_lists();
    written_indexes_read_back();
    what_is_stored_can_be_made();
    each_built_file_is_stored();
    sorted_lists_are_well_formed();
    reindexing_is_safe();
}

/// The change that a mark plans keeps every sound repository sound whose snapshots were known when it was planned:
/// all that they reach stays in packs without marks. And it may be committed only where no event came since.
pub fn a_planned_mark_is_safe()
    ensures safe { MarkIsSafe }
    ensures strict { MarkIsStrict }
{
    orders_tell_apart();
    used_blobs_are_listed_once();
    each_use_is_recorded();
    a_planned_mark_can_be_made();
    marking_is_safe();
}
