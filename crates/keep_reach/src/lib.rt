//! What the snapshots of a repository reach, and which of them can't be had whole.
#![tactic(auto)]

mod reach_laws;
mod reach_walk;
mod reached_blobs;
mod snapshots;

pub use reach_laws::{
    the_sound_is_broken_by_trees_alone, the_unbroken_is_sound, used_blobs_are_listed_once,
};
pub use reach_walk::levels;
pub use reached_blobs::{Reached, ReachedBlob};
pub use snapshots::{broken, reach, reach_all, used};
