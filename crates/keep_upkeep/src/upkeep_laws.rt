ghost use Rattle.std.specs.Prelude.{◌≡◌, ℕ, ℤ, Ok, true};
ghost use Rattle.std.specs.FinSet as set;
ghost use Rattle.keep_names.specs.Orders.{id_cmp};
ghost use Rattle.keep_repo.specs.Repository.{Repository, held};
ghost use Rattle.keep_change.specs.Change.{is_met};
ghost use Rattle.keep_change.specs.Form.{IsWellFormed};
ghost use Rattle.keep_change.specs.declared.change.Change as the_change;
ghost use Rattle.keep_upkeep.specs.Mark.{mark_change};
ghost use Rattle.keep_upkeep.specs.Repair.{repair_change};
ghost use Rattle.keep_upkeep.specs.Sweep.{sweep_change};

use keep_change::{sorted_lists_are_well_formed, what_is_asked_is_met};
use keep_names::{names_are_ordered, orders_tell_apart};
use keep_plan::what_is_stored_can_be_made;

/// The change of a sweep can be committed: it is well formed, and the repository that it was planned on meets it.
pub fn a_planned_sweep_can_be_made()
    ensures well_formed { (r : Repository) (now : ℤ) (wait : ℕ) (c : the_change.Change)
        → sweep_change r now wait ≡ Ok c → IsWellFormed c }
    ensures met { (r : Repository) (now : ℤ) (wait : ℕ) (c : the_change.Change)
        → sweep_change r now wait ≡ Ok c → is_met (held r) c ≡ true }
{
    orders_tell_apart();
    names_are_ordered();
    what_is_stored_can_be_made();
    sorted_lists_are_well_formed();
    what_is_asked_is_met();
}

/// The change of a repair can be committed: it is well formed, and the repository that it was planned on meets it.
pub fn a_planned_repair_can_be_made()
    ensures well_formed { (r : Repository) (c : the_change.Change) → repair_change r ≡ Ok c → IsWellFormed c }
    ensures met { (r : Repository) (c : the_change.Change) → repair_change r ≡ Ok c → is_met (held r) c ≡ true }
{
    orders_tell_apart();
    names_are_ordered();
    what_is_stored_can_be_made();
    sorted_lists_are_well_formed();
    what_is_asked_is_met();
}

/// The change of a mark can be committed: it is well formed, and the repository that it was planned on meets it.
pub fn a_planned_mark_can_be_made()
    ensures well_formed { (r : Repository) (known : set.FinSet id_cmp) (moment : ℤ) (c : the_change.Change)
        → mark_change r known moment ≡ Ok c → IsWellFormed c }
    ensures met { (r : Repository) (known : set.FinSet id_cmp) (moment : ℤ) (c : the_change.Change)
        → mark_change r known moment ≡ Ok c → is_met (held r) c ≡ true }
{
    names_are_ordered();
    orders_tell_apart();
    what_is_stored_can_be_made();
    sorted_lists_are_well_formed();
    what_is_asked_is_met();
}
