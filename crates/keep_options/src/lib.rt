//! The options that the words behind the name of `keepd` give, or the word that is the bad one.
#![tactic(auto)]

mod options;

pub use options::{BadOptions, Options, find_bad_word, read_options};
