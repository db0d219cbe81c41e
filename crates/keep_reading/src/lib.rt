//! What stands on a shelf, read: the opening and the journal that its entries, its live files and its trash tell, and
//! the tests by which that is found out. Where the calls of an event stop, that is what was so before it, or after it.
#![tactic(auto)]

mod leaf;
mod reading_laws;
mod stops;

pub use leaf::Leaf;
pub use reading_laws::{one_bad_entry_is_enough, one_reading, what_passes_is_read};
pub use stops::{a_shelf_says_what_is_in, calls_are_added, events_begin_at_their_entries};
