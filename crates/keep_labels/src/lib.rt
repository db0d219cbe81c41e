//! Tags and forget: which snapshots a policy keeps, and what an edit makes of the tags of others.
#![tactic(auto)]

mod count;
mod edit;
mod forget;
mod group_row;
mod group_walk;
mod groups;
mod label_laws;
mod order;
mod policy;
mod retagged;
mod rising;
mod swap;
mod tag;
mod taken_snapshots;

pub use count::Count;
pub use edit::{Edit, are_changed};
pub use forget::plan_forget;
pub use label_laws::{a_planned_forget_can_be_made, a_planned_tagging_can_be_made};
pub use policy::{Policy, dropped};
pub use rising::names_rise;
pub use tag::plan_tag;
