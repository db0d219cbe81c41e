ghost use Rattle.keep_safety.specs.SafeLabels.{EditsAreTexts, ForgetIsSafe, TaggingIsSafe};

use keep_change::sorted_lists_are_well_formed;
use keep_names::orders_tell_apart;
use keep_plan::what_is_stored_can_be_made;
use keep_snap::{retagged_snapshots_can_be_written, snapshots_read_back};
use keep_sound::{forgetting_is_safe, retagging_is_safe};

/// The change that a forget plans keeps every sound repository sound, whenever it is made: nothing that a snapshot
/// reaches which it leaves is lost.
pub fn a_planned_forget_is_safe()
    ensures { ForgetIsSafe }
{
    orders_tell_apart();
    sorted_lists_are_well_formed();
    forgetting_is_safe();
}

/// The change that an edit of tags plans keeps every sound repository sound, whenever it is made: a new snapshot
/// reaches what the old one did. An edit that is asked for in texts is such.
pub fn a_planned_tagging_is_safe()
    ensures safe { TaggingIsSafe }
    ensures texts { EditsAreTexts }
{
    orders_tell_apart();
    snapshots_read_back();
    retagged_snapshots_can_be_written();
    what_is_stored_can_be_made();
    sorted_lists_are_well_formed();
    retagging_is_safe();
}
