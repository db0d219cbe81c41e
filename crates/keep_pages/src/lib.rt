//! A sheet: one copy of a repository under its history, and how it follows an event. What a list of accepted events
//! leaves.
#![tactic(auto)]

mod event_copies;
mod fitting;
mod last;
mod page_laws;
mod sheet;
mod turning;

pub use event_copies::copy_event;
pub use last::last_event;
pub use page_laws::{
    accepted_events_are_followed, accepted_requests_leave_open_ledgers, histories_grow,
    sheets_cross_threads,
};
pub use sheet::Sheet;
