//! The words of the process, read as what `keep` is asked: which command they name, and what the words behind it ask.
#![tactic(auto)]

mod changes;
mod forgetting;
mod reads;
mod tagging;
mod typed;
mod waiting;

pub use typed::read_words;
