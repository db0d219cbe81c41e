//! Answers of the script language, which print themselves.
#![tactic(auto)]

mod answer_lines;
mod reply_lines;

pub use answer_lines::{
    Armed, Compared, Counts, EventLine, FileLine, FindingLine, FoundCount, Noted, RestoredCounts,
    RestoredFile, TotalLine,
};
pub use reply_lines::{Accepted, BadLine, Committed, Refused, Sizes, TakenNumbers};
