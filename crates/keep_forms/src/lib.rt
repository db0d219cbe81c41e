//! How the commands of `keep` are written, for `clap`.
#![tactic(auto)]

mod changing_forms;
mod clap_forms;
mod common_forms;
mod form;
mod reading_forms;

pub use clap_forms::keep_command;
