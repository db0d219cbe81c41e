//! The command `backup`, of files of the machine.
#![tactic(auto)]

mod asked;
mod backing;
mod places;
mod printing;
mod unchanged;

pub use asked::{Asked, asked_for};
pub use backing::backup;
