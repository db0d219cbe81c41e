//! What an event moves on a shelf: the calls that bring it from what stood there before to what stands there after, and
//! what stands there for a journal.
#![tactic(auto)]

mod event_entry;
mod event_moves;
mod looking;
mod making;
mod move_laws;
mod moves;
mod sweeping;

pub use event_entry::entry_of;
pub use event_moves::{first_moves, turn_moves};
pub use looking::look;
pub use making::{make, settle};
pub use move_laws::{
    calls_are_counted, events_are_begun, moves_can_be_finished, stops_stay_behind,
};
pub use moves::Move;
pub use sweeping::swept_moves;
