//! Acts: what a command asks of the book, and what comes of it, as values that others print.
#![tactic(auto)]

mod advice;
mod changing;
mod choice;
mod made;
mod not_done;
mod outcome;
mod plan_advice;
mod pruning;
mod relied;
mod requesting;

pub use advice::Advice;
pub use changing::{change, preview};
pub use choice::{Choice, change_chosen};
pub use made::Made;
pub use not_done::NotDone;
pub use outcome::Outcome;
pub use plan_advice::PlanAdvice;
pub use pruning::{Pruned, prune};
pub use relied::misnamed_present;
pub use requesting::ask;
