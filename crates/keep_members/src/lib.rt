//! What a node of a tree says beside its name and what it is: mode, times, owner, place, size and link target, as
//! typed values and as the members that a node carries.
#![tactic(auto)]

mod carried_members;
mod found_members;
mod instant;
mod member_laws;
mod members;
mod mode;
mod said;
mod stamp;
mod time_texts;

pub use carried_members::carried;
pub use found_members::{FoundMembers, members_in, mtime_in, size_in};
pub use member_laws::{carried_members_read_back, modes_go_there_and_back};
pub use members::Members;
pub use mode::{go_mode, unix_mode};
pub use stamp::Stamp;
