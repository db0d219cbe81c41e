//! What is backed up, as any source tells it, and the walk that gives it to an archive.
#![tactic(auto)]

mod asked_paths;
mod copying;
mod excluding;
mod receives;
mod scope;
mod skipped;
mod source;
mod stat;
mod taken_files;
mod taken_paths;
mod taking;
mod walk;

pub use receives::{Receives, Stop};
pub use scope::{Known, Scope};
pub use skipped::{Skipped, Why};
pub use source::{FolderListing, Source};
pub use stat::{Moment, Stat, StatKind};
pub use taking::Taking;
