//! What a repository gives back: a snapshot's files, and all that is wrong with its own.
#![tactic(auto)]

mod content;
mod content_walk;
mod finding;
mod findings;
mod joined_pieces;
mod restoration;
mod restore_error;
mod restore_laws;
mod restored;
mod wrong_names;

pub use finding::Finding;
pub use findings::{audit, audit_with};
pub use restoration::restore;
pub use restore_error::RestoreError;
pub use restore_laws::{paths_are_apart, sound_repositories_lose_no_blob};
pub use restored::RestoredFiles;
