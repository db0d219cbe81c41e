//! Backups: what a source has is taken into an archive over a book, part by part, and the last change adds the snapshot.
//! Files that the last snapshot of the same host and paths has unchanged aren't read again.
#![tactic(auto)]

mod backed_up;
mod backing_up;
mod begun;
mod giving;
mod intake;
mod keeps;
mod known_file;
mod lent;
mod list;
mod node_members;
mod not_backed_up;
mod source_paths;
mod type_name;

pub use backed_up::BackedUp;
pub use backing_up::{Wish, back_up};
pub use list::known_of;
pub use not_backed_up::NotBackedUp;
