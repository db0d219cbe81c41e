//! The opening of a shelf: what stands there is taken in, read, and tested, and what is left to be done of an event in
//! whose middle it was opened.
#![tactic(auto)]

mod due;
mod due_law;
mod held_files;
mod intake;
mod leaf_history;
mod leaves;
mod made_files;
mod marking;
mod open_error;
mod opening;
mod over;
mod settling;
mod trash;

pub use due::due_moves;
pub use due_law::what_is_due_leads_on;
pub use intake::read_stock;
pub use leaf_history::history_of;
pub use leaves::leaves_of;
pub use made_files::{make_files, put_live};
pub use open_error::OpenError;
pub use opening::{Opened, read};
pub use settling::{last_moves, remains, settle};
pub use trash::wanted;
