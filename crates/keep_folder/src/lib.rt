//! A shelf in a folder, over any tree of files: a repository in restic's layout, beside the journal and the trash; and a
//! new repository's folder.
#![tactic(auto)]

mod begin_error;
mod beginning;
mod host;
mod new_config;
mod not_opened;
mod on_disk;
mod run;
mod shelf;

pub use begin_error::BeginError;
pub use beginning::begin;
pub use host::HostTree;
pub use keep_disk::{Cause, DiskTree, FolderError};
pub use new_config::config_bytes;
pub use not_opened::NotOpened;
pub use on_disk::open_folder;
pub use run::name_of_run;
pub use shelf::FolderShelf;
