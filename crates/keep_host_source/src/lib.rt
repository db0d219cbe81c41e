//! The files of a machine as a source, and what the machine says of itself.
#![tactic(auto)]

mod failure;
mod host_names;
mod host_source;
mod kind;
mod machine;

pub use host_source::HostSource;
pub use machine::{host_name, user_id, user_name};
