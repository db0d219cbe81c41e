//! A shelf: bytes under keys, in a place that may fail, such as a folder. Here it is in memory, and one that fails when it
//! is told to.
#![tactic(auto)]

mod call_failures;
mod failing;
mod key;
mod key_order;
mod memory;
mod shelf;
mod stock;

pub use failing::FailingShelf;
pub use key::Key;
pub use key_order::keys_are_ordered;
pub use memory::MemoryShelf;
pub use shelf::{Fault, Shelf};
pub use stock::Stock;
