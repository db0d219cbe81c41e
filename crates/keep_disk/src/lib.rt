//! A tree of files on a disk, with an image of it in memory.
#![tactic(auto)]

mod disk;
mod disk_config;
mod disk_names;
mod disk_opening;
mod disk_reading;
mod disk_tree;
mod folder_error;
mod lock;
mod new_file;
mod private;
mod scan;
mod sight;

pub use disk_opening::NotRead;
pub use disk_tree::DiskTree;
pub use folder_error::{Cause, FolderError};
