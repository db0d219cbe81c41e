//! What leans on what: which changes touch a facet, for each its mentions in the order of the changes' numbers; and which
//! have to be taken back with a change, those that lean on it and on those in turn.
#![tactic(auto)]

mod gathered;
mod lookup;
mod mention;
mod notes_law;
mod noting;
mod taken_changes;
mod taken_laws;
mod touch;

pub use mention::Mention;
pub use notes_law::notes_follow_events;
pub use taken_changes::taken_with;
pub use taken_laws::{one_list_is_taken, the_taken_set_is_least, undos_leave_the_others};
pub use touch::Touch;
