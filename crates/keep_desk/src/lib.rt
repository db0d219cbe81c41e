//! A desk: many operators plan on views that take no lock, and each change is made under one.
#![tactic(auto)]

mod answers;
mod crew;
mod desk;
mod first_passes;
mod gathering;
mod handing;
mod locked;
mod press;
mod taken_back;

pub use answers::NotOpened;
pub use crew::Operator;
pub use desk::Desk;
pub use handing::books_cross_threads;
pub use keep_crew::{DeskError, Gate, NotTold, OpenGate, Plans, Work};
pub use keep_register::{NoPage, Pass, Shown};
pub use locked::Locked;
pub use taken_back::TakenBack;
