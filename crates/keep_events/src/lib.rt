//! What a history and its changes say to people: each event with what it did, and each part of a change.
#![tactic(auto)]

mod change_parts;
mod event;
mod event_rows;
mod part;
mod purpose;
mod shape;
mod taken;
mod wrote;

pub use change_parts::parts_of;
pub use event::EventRow;
pub use event_rows::events_of;
pub use part::{PartRow, Sign};
pub use purpose::Purpose;
pub use shape::{Files, Shape, shape_of};
pub use taken::Taken;
pub use wrote::Wrote;
