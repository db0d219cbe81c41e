//! The snapshots of a repository in the order of their moments, each with the change that added it, and which of them
//! a text means.
#![tactic(auto)]

mod adding;
mod listed_snapshot;
mod named_error;
mod rows;
mod snapshot_names;

pub use listed_snapshot::ListedSnapshot;
pub use named_error::NamedError;
pub use rows::snapshots_of;
pub use snapshot_names::named;
