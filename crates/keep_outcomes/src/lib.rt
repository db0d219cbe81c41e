//! What became of a command's request, and what a change did, as `keep` prints them.
#![tactic(auto)]

mod made_text;
mod outcome;
mod printed_parts;
mod pruned;
mod shown_change;
mod taken;

pub use made_text::print_effects;
pub use outcome::print_outcome;
pub use printed_parts::Way;
pub use pruned::print_pruned;
pub use shown_change::show;
pub use taken::print_taken;
