//! The program `keepd` without its edge: the run by the options that its words give, and how it ended.
#![tactic(auto)]

mod crew;
mod ending;
mod named_shelf;
mod program;
mod report;
mod serving;
mod shelves;
mod stored_questions;
mod terms;
mod unopened;

pub use crew::{Crew, NoOperators};
pub use ending::{Ending, report_ending};
pub use keep_folder::FolderError;
pub use keep_operators::{CrewTally, NoCrew, Order};
pub use keep_options::BadOptions;
pub use named_shelf::{HostShelves, NamedShelf};
pub use program::keepd;
pub use shelves::Shelves;
pub use unopened::Unopened;
