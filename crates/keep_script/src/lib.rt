//! The run of a script: its lines are read, and answered in order.
#![tactic(auto)]

mod flushing;
mod input;
mod script;
mod status;
mod turns;

pub use script::{Setup, run, run_on};
pub use status::RunStatus;
