//! The commands that put files somewhere: `restore` and `dump` those of a snapshot, and `rescue` a repository's own.
#![tactic(auto)]

mod dumping;
mod rescuing;
mod restored_snapshot;

pub use dumping::dump_file;
pub use rescuing::rescue_folder;
pub use restored_snapshot::restore_snapshot;
