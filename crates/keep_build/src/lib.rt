//! What is built of blobs: packs, their index, and what both rely on.
#![tactic(auto)]

mod cut;
mod packs;
mod stored_blobs;
mod storing;

pub use cut::Cut;
pub use stored_blobs::store;
pub use storing::{Storing, Text};
