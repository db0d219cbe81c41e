//! A snapshot put back into a new folder, and a file of it written out.
#![tactic(auto)]

mod attributes;
mod chosen_entries;
mod dumping;
mod not_dumped;
mod not_restored;
mod pattern_law;
mod restoring;
mod stored_pieces;
mod wanted;
mod wanting;

pub use dumping::dump;
pub use not_dumped::NotDumped;
pub use not_restored::NotRestored;
pub use pattern_law::no_pattern_means_all;
pub use restoring::restore;
