//! A target over calls of which nothing is known, which notes what was asked of them and how it ended.
#![tactic(auto)]

mod noted;
mod store;

pub use noted::NotedTarget;
pub use store::Store;
