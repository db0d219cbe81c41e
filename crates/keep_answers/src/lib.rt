//! The answer to a line: its names are resolved to values, what it asks for is done, and the lines of the answer are
//! written.
#![tactic(auto)]

mod answer_lists;
mod answering;
mod arming;
mod halt;
mod hashing_first;
mod hook_place;
mod meant;
mod notes;
mod output;
mod raw_files;
mod reply_text;
mod resolving;
mod session;
mod session_events;

pub use halt::Halt;
pub use output::put_line;
pub use session::Session;
