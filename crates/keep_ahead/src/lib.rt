//! A source that is gone through ahead, in a thread of its own: what its calls answer is there before it is asked for, and
//! long files are hashed by then, with the packs that a backup of them makes.
#![tactic(auto)]

mod ahead_source;
mod answer;
mod brief;
mod going;
mod hashed;
mod packs_ahead;
mod telling;

pub use ahead_source::{Ahead, AheadSource};
pub use hashed::{AheadHashing, HashedAhead};
