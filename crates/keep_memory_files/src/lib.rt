//! A tree of files in memory, and one that fails when it is told to.
#![tactic(auto)]

mod done_act;
mod failing;
mod memory;
mod path_bounds;
mod tree_failures;

pub use failing::FailingTree;
pub use memory::MemoryTree;
