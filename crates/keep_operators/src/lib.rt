//! What the operators of a crew are asked for: jobs that plan for themselves, and the backups of a crew; and what is told of
//! it.
#![tactic(auto)]

mod backups;
mod each_snapshot;
mod order;
mod planner;

pub use backups::crew_of;
pub use each_snapshot::EachSnapshot;
pub use order::{CrewTally, NoCrew, Order};
pub use planner::Planner;
