//! A view: a repository at a moment of its history, as planners and readers are shown it.
#![tactic(auto)]

mod known;
mod known_law;
mod view;

pub use known_law::the_known_are_there_or_added;
pub use view::View;
