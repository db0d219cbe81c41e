//! A damaged repository's rescue: a new folder of the files that are whole.
#![tactic(auto)]

mod loss;
mod names;
mod rescued;
mod rescuing;
mod salvage;

pub use loss::{Loss, Lost};
pub use rescued::{NotRescued, Rescued};
pub use rescuing::rescue;
