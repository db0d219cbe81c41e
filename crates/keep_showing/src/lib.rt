//! The commands that show what a repository has: its snapshots and their files, its events, what leans on
//! what, and what is wrong.
#![tactic(auto)]

mod checking;
mod graphing;
mod shown_history;
mod viewing;

pub use checking::check;
pub use graphing::graph;
pub use shown_history::history;
pub use viewing::{compare, find, list_nodes, list_snapshots};
