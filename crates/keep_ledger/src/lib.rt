//! The ledger: a repository under numbered changes, any of which can be taken back. Its files stand on a shelf, which
//! may fail.
#![tactic(auto)]

mod checks;
mod dependents;
mod entering;
mod event_making;
mod guarding;
mod history_point;
mod ledger;
mod ledger_laws;
mod ledger_opening;
mod not_opened;
mod noting;
mod opening_marks;
mod preparing;
mod reply;
mod requests;

pub use keep_journal::{Request, Told};
pub use keep_opening::OpenError;
pub use ledger::Ledger;
pub use ledger_laws::{calls_are_counted, live_files_alone_are_opened};
pub use not_opened::NotOpened;
pub use opening_marks::marks_under;
pub use reply::Refusal;
