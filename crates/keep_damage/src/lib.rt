//! What keeps a shelf from being opened: which of its entries and files, and how each is wrong.
#![tactic(auto)]

mod asked;
mod comparing;
mod damage;
mod damage_report;
mod entries;
mod finding;
mod half;
mod sign;
mod teller;

pub use damage::{damage_in, damage_on};
pub use damage_report::report;
pub use finding::Finding;
