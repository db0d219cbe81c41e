ghost use Rattle.keep_sound.specs.Retreeing.{BuiltRetrees, KeptRetrees, RewritingIsSafe};

use crate::careful::careful_changes_are_safe;
use crate::forms::covering_changes_are_careful;

/// A tree that stays reaches nothing new.
pub fn kept_trees_retree_themselves()
    ensures { KeptRetrees }
{}

/// A tree that is written anew reaches nothing but what is given and what the old tree reaches, if the same holds
/// of each blob that it names.
pub fn built_trees_retree()
    ensures { BuiltRetrees }
{}

/// To write snapshots with new trees is safe, if these reach nothing but what is given and what the old trees
/// reach.
pub fn rewriting_is_safe()
    ensures { RewritingIsSafe }
{
    covering_changes_are_careful();
    careful_changes_are_safe();
}
