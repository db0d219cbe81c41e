//! Patterns of paths: what they match, what a path leaves open of them, and what of a folder stays where they go.
#![tactic(auto)]

mod leaving;
mod letters;
mod matching;
mod name_match;
mod parsing;
mod pattern;
mod rest;
mod rest_laws;
mod rests;
mod step;

pub use leaving::{is_matched, without};
pub use letters::{Letters, letters_of};
pub use matching::matches_path;
pub use parsing::{PatternError, parse_pattern};
pub use pattern::{Component, Pattern};
pub use rest_laws::{rests_tell_apart, what_is_left_decides};
pub use rests::Rests;
