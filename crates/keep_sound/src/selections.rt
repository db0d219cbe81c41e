ghost use Rattle.keep_sound.specs.Selection.{CommitsStaySound, EmptyingsStaySound, FiltersAreSelections, SelectionsAreSound};

use keep_change::results_follow_the_lists;

/// Whichever of the safe changes of a history are made, in their order, a sound opening becomes a sound repository,
/// wherever all of them can be made.
pub fn selections_are_sound()
    ensures { SelectionsAreSound }
{
    results_follow_the_lists();
}

/// A history stays so by a commit of a change that is safe for the known snapshots.
pub fn commits_stay_sound()
    ensures { CommitsStaySound }
{}

/// A history stays so by an emptying.
pub fn emptyings_stay_sound()
    ensures { EmptyingsStaySound }
{
    results_follow_the_lists();
}

/// The changes of a history that pass a test, as those in force, are one of its selections.
pub fn filters_are_selections()
    ensures { FiltersAreSelections }
{}
