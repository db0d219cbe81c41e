//! Lines of the script language: each is read as the command of which it is the text.
#![tactic(auto)]

mod backup_line;
mod command;
mod edits;
mod forget_line;
mod job_line;
mod line;
mod line_law;
mod mistake;
mod policies;
mod question;
mod raw_file;
mod revision;
mod rewrite_line;
mod tag_line;
mod word;
mod word_list;

pub use backup_line::BackupLine;
pub use command::{Command, LineError, parse};
pub use edits::edit_of;
pub use forget_line::{ForgetLine, Rule};
pub use job_line::JobLine;
pub use line_law::a_line_has_one_command;
pub use mistake::Mistake;
pub use policies::policy_of;
pub use question::Question;
pub use raw_file::RawFile;
pub use revision::Revision;
pub use rewrite_line::RewriteLine;
pub use tag_line::{TagLine, TagWord};
pub use word::{MeantFile, print_hex};
