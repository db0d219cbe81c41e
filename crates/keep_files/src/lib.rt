//! The files below a folder, as any tree that has them.
#![tactic(auto)]

mod file_tree;
mod folder_law;
mod home;
mod node;
mod tree_error;

pub use file_tree::FileTree;
pub use folder_law::acts_keep_folders;
pub use home::home_of;
pub use node::Node;
pub use tree_error::TreeError;
