//! Tokens of one list of events that only grows. They take no memory: of two that were seen, the shorter list begins
//! the longer.
#![tactic(auto)]

mod chronicle;
mod note;

pub use chronicle::{Chronicle, Chronicled, Opened};
pub use note::{Note, Sight};
