//! The book: a ledger, with the vetoes and watches that are armed over it.
#![tactic(auto)]

mod book;
mod cascade;
mod cascade_law;
mod hooks;
mod not_armed;
mod taken_back;

pub use book::Book;
pub use cascade_law::nothing_leans_on_the_next;
pub use not_armed::NotArmed;
pub use taken_back::TakenBack;
