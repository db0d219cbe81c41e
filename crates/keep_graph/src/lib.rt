//! Which changes lean on which: each change with those that lean on it at once, as text and for graphviz.
#![tactic(auto)]

mod dot;
mod leaning;
mod link;
mod tree;

pub use dot::graph_dot;
pub use leaning::leaning_on;
pub use link::Link;
pub use tree::graph_text;
