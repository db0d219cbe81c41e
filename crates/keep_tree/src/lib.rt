//! Trees of a repository: what a folder holds, read exactly and written in one spelling.
#![tactic(auto)]

mod names;
mod node;
mod tree;
mod tree_writing;

pub use names::is_name;
pub use node::{Node, NodeKind};
pub use tree::{Tree, TreeError, read_tree};
pub use tree_writing::{trees_read_back, write_tree};
