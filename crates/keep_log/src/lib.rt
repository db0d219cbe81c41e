//! A list that only proofs read. It takes no memory, and its calls do nothing at run time.
#![tactic(auto)]

mod log;

pub use log::Log;
