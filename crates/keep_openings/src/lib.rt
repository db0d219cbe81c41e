//! Opening a repository's folder: what stands on its shelf taken into memory, to be looked at alone, and why a shelf isn't
//! opened, with what to do then.
#![tactic(auto)]

mod advice;
mod copying;
mod counted_folder;
mod counted_tree;
mod refusal;
mod unopened;

pub use copying::copied;
pub use counted_folder::open_counted;
pub use counted_tree::CountedTree;
pub use refusal::refusal_of;
pub use unopened::Unopened;
