//! What each command of `keep` goes by: who runs it over which folder, how it fails, what it prints, and what its words
//! name.
#![tactic(auto)]

mod failure;
mod left;
mod meant_words;
mod printing;
mod refusing;
mod run;

pub use failure::{Failure, report_failure};
pub use left::{Left, left_value, name_left};
pub use meant_words::{meant, pattern_of, patterns_of};
pub use printing::{numbers_text, print_rows};
pub use refusing::{refused, require_sure};
pub use run::Run;
