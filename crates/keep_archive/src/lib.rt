//! Backups to which nodes are given one after another: folders, files of any size, and others. What is new is stored in
//! parts.
#![tactic(auto)]

mod archive;
mod archive_node;
mod archive_plans;
mod backup_law;
mod begun_file;
mod blobs;
mod carried;
mod cut_bytes;
mod folder;
mod going;
mod held;
mod not_planned;
mod open_folders;
mod part_storing;
mod pieces;

pub use archive::Archive;
pub use backup_law::archives_plan_backups;
pub use carried::Carried;
pub use held::{HeldBlob, KnownHashing};
pub use not_planned::NotPlanned;
