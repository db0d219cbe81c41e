//! Indexes: which blobs the packs of a repository hold, and where in them.
#![tactic(auto)]

mod index;
mod index_error;
mod index_reading;
mod index_writing;
mod joining;
mod leaving;

pub use index::{Index, IndexedPack};
pub use index_error::IndexError;
pub use index_reading::read_index;
pub use index_writing::{write_index, written_indexes_read_back};
pub use joining::{join, what_is_joined_is_listed};
pub use leaving::{what_is_left_is_listed, without_packs};
