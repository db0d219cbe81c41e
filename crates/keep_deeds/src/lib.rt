//! Deeds: what typed commands ask of the book, as values.
#![tactic(auto)]

mod deed;
mod deed_texts;
mod meaning;
mod performing;
mod tasks;

pub use deed::{Deed, NoDeed};
pub use meaning::deed_of;
pub use performing::{Came, perform};
