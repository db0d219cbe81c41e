ghost use Rattle.keep_repo.specs.Repository.{empty_repository};
ghost use Rattle.keep_reach.specs.Sound.{IsSound};
ghost use Rattle.keep_sound.specs.Careful.{CarefulIsSafe, SoundByNames};

use keep_catalog::the_chosen_place_is_least;
use keep_change::results_follow_the_lists;

/// Whether a repository is sound is a matter of the names of its files, once all bytes are known.
pub fn soundness_is_by_names()
    ensures { SoundByNames }
{
    the_chosen_place_is_least();
}

/// A careful change keeps a sound repository sound.
pub fn careful_changes_are_safe()
    ensures { CarefulIsSafe }
{
    results_follow_the_lists();
    soundness_is_by_names();
}

/// The repository without files is sound.
pub fn the_empty_repository_is_sound()
    ensures { IsSound empty_repository }
{}
