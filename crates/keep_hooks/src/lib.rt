//! What operators store under names, each with the rule that it answers by: vetoes, questions that refuse an event
//! before it is made; watches, counts over the events that were made.
#![tactic(auto)]

mod armed_watch;
mod event_measures;
mod guard;
mod hook_name;
mod limit;
mod measure;
mod measure_law;
mod veto;
mod watch;

pub use armed_watch::ArmedWatch;
pub use event_measures::{files_written, makes_change, snapshots_dropped};
pub use guard::{Guard, NoHooks};
pub use hook_name::HookName;
pub use limit::Limit;
pub use measure::Measure;
pub use measure_law::measures_are_small;
pub use veto::{AskOutline, Veto, first_veto};
pub use watch::{CountOutline, Watch};
