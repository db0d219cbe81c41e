ghost use Rattle.keep_sound.specs.Plans.{BackingUpIsSafe, BuiltSupports, ForgettingIsSafe, MarkingIsSafe, ReindexingIsSafe, RetaggingIsSafe, ReusedIsGiven};

use crate::careful::careful_changes_are_safe;
use crate::forms::{
    covering_changes_are_careful, marking_changes_are_careful, relisting_changes_are_careful,
};
use keep_catalog::the_chosen_place_is_least;
use keep_names::orders_tell_apart;
use keep_reach::the_unbroken_is_sound;

/// A blob that has a chosen place in the repository on which a change was planned is given by the change, if what
/// the use of that place rests on is recorded.
pub fn recorded_uses_give_their_blobs()
    ensures { ReusedIsGiven }
{
    the_chosen_place_is_least();
}

/// A built pack and its index support each blob that both have.
pub fn built_files_support_their_blobs()
    ensures { BuiltSupports }
{}

/// To forget snapshots is safe.
pub fn forgetting_is_safe()
    ensures { ForgettingIsSafe }
{
    covering_changes_are_careful();
    careful_changes_are_safe();
}

/// To write snapshots anew with the trees that they had is safe.
pub fn retagging_is_safe()
    ensures { RetaggingIsSafe }
{
    covering_changes_are_careful();
    careful_changes_are_safe();
}

/// To list anew what dropped indexes list is safe, and to drop packs that are marked.
pub fn reindexing_is_safe()
    ensures { ReindexingIsSafe }
{
    relisting_changes_are_careful();
    careful_changes_are_safe();
}

/// To mark packs is safe, if no snapshot is broken, and the uses of all blobs that snapshots reach are recorded.
pub fn marking_is_safe()
    ensures { MarkingIsSafe }
{
    the_chosen_place_is_least();
    the_unbroken_is_sound();
    recorded_uses_give_their_blobs();
    marking_changes_are_careful();
    careful_changes_are_safe();
}

/// To back up is safe, if each blob of the walk is given.
pub fn backing_up_is_safe()
    ensures { BackingUpIsSafe }
{
    orders_tell_apart();
    the_chosen_place_is_least();
    covering_changes_are_careful();
    careful_changes_are_safe();
}
