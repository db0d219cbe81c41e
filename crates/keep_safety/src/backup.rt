ghost use Rattle.std.specs.Prelude.{◌≡◌, ℕ, Ok, true, List};
ghost use Rattle.keep_repo.specs.Repository.{Repository, held};
ghost use Rattle.keep_change.specs.Change.{is_met};
ghost use Rattle.keep_change.specs.Form.{IsWellFormed};
ghost use Rattle.keep_change.specs.declared.change.Change as the_change;
ghost use Rattle.keep_backup.specs.Backup.{FactsData, backup_change};
ghost use Rattle.keep_safety.specs.SafeBackup.{BackupIsSafe, BackupsAreTexts};

use crate::storing_laws::what_is_stored_is_given;
use keep_names::{digests_are_ids, orders_tell_apart};
use keep_snap::snapshots_read_back;
use keep_sound::backing_up_is_safe;
use keep_tree::trees_read_back;

/// The change of a backup can be committed: it is well formed, and the repository that it was planned on meets
/// it.
pub fn a_planned_backup_can_be_made()
    ensures well_formed { (r : Repository) (facts : FactsData) (cut : ℕ) (given : List (List ℕ × List ℕ))
        (c : the_change.Change) → backup_change r facts cut given ≡ Ok c → IsWellFormed c }
    ensures met { (r : Repository) (facts : FactsData) (cut : ℕ) (given : List (List ℕ × List ℕ))
        (c : the_change.Change) → backup_change r facts cut given ≡ Ok c → is_met (held r) c ≡ true }
{}

/// The change that a backup plans keeps every sound repository sound, whenever it is made: all that the new
/// snapshot reaches can be read after it, and nothing that an older one reaches is lost. What a backup is asked for
/// in texts is such.
pub fn a_planned_backup_is_safe()
    ensures safe { BackupIsSafe }
    ensures texts { BackupsAreTexts }
{
    digests_are_ids();
    orders_tell_apart();
    trees_read_back();
    snapshots_read_back();
    what_is_stored_is_given();
    a_planned_backup_can_be_made();
    backing_up_is_safe();
}
