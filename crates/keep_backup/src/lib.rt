//! Backups: what is stored of files, and what that relies on.
#![tactic(auto)]

mod backup_plan;
mod path_walk;
mod paths;
mod snapshot;

pub use backup_plan::{change_with, has_bad_time, plan_backup};
pub use snapshot::{BackupFacts, snapshot_file};
