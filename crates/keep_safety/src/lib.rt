//! Laws alone, without code: what backups store is given, and the changes that planners plan keep every sound
//! repository sound.
#![tactic(auto)]

mod archive_laws;
mod backup;
mod labels;
mod rewrite;
mod storing_laws;
mod upkeep;

pub use archive_laws::{a_part_is_safe, archives_are_texts, the_last_change_is_safe};
pub use backup::{a_planned_backup_can_be_made, a_planned_backup_is_safe};
pub use labels::{a_planned_forget_is_safe, a_planned_tagging_is_safe};
pub use rewrite::plan_rewrite_is_safe;
pub use storing_laws::{each_blob_is_kept, packs_are_cut_when_full, what_is_stored_is_given};
pub use upkeep::{
    a_planned_mark_is_safe, a_planned_repair_is_safe, a_planned_sweep_is_safe, what_a_repair_lists,
    what_a_sweep_lists,
};
