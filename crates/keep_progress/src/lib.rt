//! How far long work is, as a line on standard error where that is a terminal: a source, a target or the machine's files
//! that count what goes through them.
#![tactic(auto)]

mod counted;
mod counted_files;
mod counts;
mod meter;

pub use counted::{CountedSource, CountedTarget};
pub use counted_files::CountedFiles;
pub use counts::{Counts, line};
pub use meter::Meter;
