//! Files by keys in a tree: all that is there, and where each is put, moved and taken away, and in which order, so that a
//! loss of power leaves each act done or not.
#![tactic(auto)]

mod key_path;
mod key_walk;
mod keyed;
mod leftovers;
mod sound_files;

pub use key_path::KeyPath;
pub use key_walk::read_keys;
pub use keyed::KeyedFolder;
