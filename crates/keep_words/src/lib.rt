//! What the words of `keep` ask, as a value, and how the words behind a command's name are read.
#![tactic(auto)]

mod command;
mod faults;
mod span;
mod word_values;
mod words;

pub use command::{Backup, Chosen, Command, Forget, Keep, Restore, Rewrite, Tag};
pub use faults::refusal;
pub use span::parse_span;
pub use word_values::{count, flag, number, text, texts};
pub use words::Words;
