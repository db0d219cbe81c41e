//! Snapshots of a repository, the times that they write, the facts that filters ask about, and edits of their tags and
//! trees.
#![tactic(auto)]

mod copies;
mod fact;
mod relabel;
mod snap;
mod snap_threads;
mod snap_writing;
mod time;

pub use fact::{SnapFacts, facts};
pub use relabel::{retag, retree};
pub use snap::{Snap, SnapError, read_snap};
pub use snap_threads::snaps_cross_threads;
pub use snap_writing::{
    retagged_snapshots_can_be_written, retreed_snapshots_can_be_written, snapshots_read_back,
    write_snap,
};
pub use time::{Month, Time, parse_moment, parse_time};
