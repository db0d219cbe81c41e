//! A journal's entries as documents, in the form that is written and in the older one, which is read too.
#![tactic(auto)]

mod checks;
mod entry;
mod entry_error;
mod entry_laws;
mod entry_values;
mod event_in;
mod event_text;
mod form;
mod held_entry;
mod held_files;
mod lists_at;
mod misread;
mod object_text;
mod read_parts;

pub use entry::{read_entry, write_entry};
pub use entry_error::EntryError;
pub use entry_laws::{events_of_open_histories_are_entries, one_event_is_spelled};
pub use held_entry::read_entry_with;
