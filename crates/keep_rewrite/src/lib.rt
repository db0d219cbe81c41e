//! Rewrites: snapshots made anew without what patterns match.
#![tactic(auto)]

mod left;
mod retreed;
mod rewrite_law;
mod rewrite_plan;
mod rewrite_walk;
mod rewritten_files;

pub use rewrite_law::a_planned_rewrite_can_be_made;
pub use rewrite_plan::plan_rewrite;
