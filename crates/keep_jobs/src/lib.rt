//! Jobs: what a line, or a worker, asks a planner for, as values, and the plan that comes of it.
#![tactic(auto)]

mod holds_filter;
mod job;
mod kit;
mod patterns;
mod planning;
mod resolving;
mod task;

pub use holds_filter::HoldsFilter;
pub use job::{Job, Settings, Task};
pub use keep_backup::BackupFacts;
pub use keep_build::Cut;
pub use kit::Kit;
pub use planning::plan;
pub use resolving::resolve;
