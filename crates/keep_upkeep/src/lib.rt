//! What goes through a whole repository: one index of all packs, marks on packs that no snapshot needs, and the sweep of
//! those that have waited.
#![tactic(auto)]

mod mark;
mod reindexing;
mod repair;
mod sweep;
mod upkeep_laws;

pub use mark::plan_mark;
pub use repair::plan_repair;
pub use sweep::plan_sweep;
pub use upkeep_laws::{
    a_planned_mark_can_be_made, a_planned_repair_can_be_made, a_planned_sweep_can_be_made,
};
