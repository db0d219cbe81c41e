//! A new folder of the machine's file system, as a target of a restore.
#![tactic(auto)]

mod refusals;
mod store;
mod target_opening;
mod user;

pub use store::HostStore;
pub use target_opening::open_target;
pub use user::caller;
