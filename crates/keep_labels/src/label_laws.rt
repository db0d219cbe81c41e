ghost use Rattle.std.specs.Prelude.{◌≡◌, Ok, true};
ghost use Rattle.keep_repo.specs.Repository.{Repository, held};
ghost use Rattle.keep_change.specs.Change.{is_met};
ghost use Rattle.keep_change.specs.Form.{IsWellFormed};
ghost use Rattle.keep_change.specs.declared.change.Change as the_change;
ghost use Rattle.keep_plan.specs.declared.pick.Pick as the_pick;
ghost use Rattle.keep_labels.specs.Edits.{EditData};
ghost use Rattle.keep_labels.specs.Forgetting.{forget_change};
ghost use Rattle.keep_labels.specs.Keeping.{PolicyData};
ghost use Rattle.keep_labels.specs.Tagging.{tag_change};

use keep_change::{sorted_lists_are_well_formed, what_is_asked_is_met};
use keep_names::orders_tell_apart;
use keep_plan::what_is_stored_can_be_made;

/// The change of a forget can be committed: it is well formed, and the repository that it was planned on meets it.
pub fn a_planned_forget_can_be_made()
    ensures well_formed { (r : Repository) (rule : the_pick.Pick) (policy : PolicyData) (c : the_change.Change)
        → forget_change r rule policy ≡ Ok c → IsWellFormed c }
    ensures met { (r : Repository) (rule : the_pick.Pick) (policy : PolicyData) (c : the_change.Change)
        → forget_change r rule policy ≡ Ok c → is_met (held r) c ≡ true }
{
    orders_tell_apart();
    sorted_lists_are_well_formed();
    what_is_asked_is_met();
}

/// The change of an edit of tags can be committed: it is well formed, and the repository that it was planned on
/// meets it.
pub fn a_planned_tagging_can_be_made()
    ensures well_formed { (r : Repository) (rule : the_pick.Pick) (edit : EditData) (c : the_change.Change)
        → tag_change r rule edit ≡ Ok c → IsWellFormed c }
    ensures met { (r : Repository) (rule : the_pick.Pick) (edit : EditData) (c : the_change.Change)
        → tag_change r rule edit ≡ Ok c → is_met (held r) c ≡ true }
{
    orders_tell_apart();
    what_is_stored_can_be_made();
    sorted_lists_are_well_formed();
    what_is_asked_is_met();
}
