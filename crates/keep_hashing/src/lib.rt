//! Who hashes many pieces of bytes. It is handed in by whoever may start threads.
#![tactic(auto)]

mod hashing;

pub use hashing::{Hashing, OneByOne};
