//! Bytes in pieces: of a text that has bytes in hex which are held elsewhere too, the hex isn't held.
#![tactic(auto)]

mod cutting;
mod in_hex;
mod joining;
mod piece;
mod rope;
mod rope_writer;

pub use piece::Piece;
pub use rope::Rope;
pub use rope_writer::RopeWriter;
