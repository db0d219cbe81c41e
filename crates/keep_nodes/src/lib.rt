//! What a snapshot has by path: its nodes with their members, found and compared without their bytes, counted and
//! measured, how they differ from another's, and the pieces of its files one by one. A restore gives just their files.
#![tactic(auto)]

mod agreement;
mod by_path;
mod chosen_nodes;
mod difference;
mod entry_walk;
mod lengths;
mod listing;
mod node_differences;
mod node_law;
mod path_node;
mod pieces;
mod root;
mod tally;

pub use agreement::{a_restore_gives_the_files_of_the_nodes, what_is_whole_is_listed_alike};
pub use chosen_nodes::{matched, node_at, nodes_below};
pub use difference::Difference;
pub use lengths::Lengths;
pub use listing::{nodes_of, whole_nodes_of};
pub use node_differences::differences;
pub use node_law::nodes_that_are_written_alike_are_one;
pub use path_node::PathNode;
pub use pieces::piece;
pub use tally::Tally;
