//! The history of a repository: numbered events, the standing of each change, and what the events still tell once
//! emptyings have made changes final.
#![tactic(auto)]

mod event;
mod history;
mod history_threads;
mod lasting_laws;
mod posting;
mod request;
mod standing;

pub use event::{Entry, Event, EventKind, Notice};
pub use history::{History, Status};
pub use history_threads::histories_cross_threads;
pub use lasting_laws::{what_lasts_grows, what_lasts_is_kept};
pub use posting::Posting;
pub use request::{Request, Told};
