//! What `keep` shows of snapshots: rows of snapshots, of what one has, of how two differ and of what a pattern matches;
//! and which snapshot a text names.
#![tactic(auto)]

mod advice;
mod chosen_snapshots;
mod compared_rows;
mod found_row;
mod listed_nodes;
mod nodes;
mod one_snapshot;
mod path_rows;
mod shown_snapshots;
mod unlisted;
mod zone;

pub use advice::NamedAdvice;
pub use chosen_snapshots::chosen_of;
pub use compared_rows::difference_rows;
pub use found_row::FoundRow;
pub use nodes::node_rows;
pub use one_snapshot::snapshot_named;
pub use path_rows::{FoundPaths, found_rows};
pub use shown_snapshots::{ShownSnapshots, snapshot_rows};
pub use unlisted::Unlisted;
pub use zone::MachineZone;
