ghost use Rattle.keep_sound.specs.Restic.{AllSafeKeepWhole, SafeKeepsWhole, SoundIsWhole};
ghost use Rattle.keep_sound.specs.Selected.{SelectionsAreWhole};

use keep_catalog::the_chosen_place_is_least;
use keep_change::results_follow_the_lists;

/// Whatever files say: whichever of some changes are made that each keep whole, in their order, a whole opening becomes
/// a whole repository, wherever all of them can be made.
pub fn selections_are_whole()
    ensures { SelectionsAreWhole }
{
    results_follow_the_lists();
}

/// A repository of restic's files is sound just where it is whole.
pub fn sound_repositories_are_whole()
    ensures { SoundIsWhole }
{
    the_chosen_place_is_least();
}

/// A safe change keeps whole, and so does each that a planner plans.
pub fn safe_changes_keep_whole()
    ensures { SafeKeepsWhole }
{
    results_follow_the_lists();
    sound_repositories_are_whole();
}

/// So do the changes of a history that are safe where the snapshots before them are known.
pub fn all_safe_changes_keep_whole()
    ensures { AllSafeKeepWhole }
{
    safe_changes_keep_whole();
}
