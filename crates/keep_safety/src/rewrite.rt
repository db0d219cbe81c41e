ghost use Rattle.keep_safety.specs.SafeRewrite.{RewriteIsSafe};

use crate::storing_laws::what_is_stored_is_given;
use keep_catalog::the_chosen_place_is_least;
use keep_names::orders_tell_apart;
use keep_sound::{built_trees_retree, kept_trees_retree_themselves, rewriting_is_safe};

/// The change that a rewrite plans keeps every sound repository sound, whenever it is made: what a new snapshot
/// reaches is stored by the change, or was reached by the old one, which has to be there.
pub fn plan_rewrite_is_safe()
    ensures { RewriteIsSafe }
{
    orders_tell_apart();
    the_chosen_place_is_least();
    what_is_stored_is_given();
    kept_trees_retree_themselves();
    built_trees_retree();
    rewriting_is_safe();
}
