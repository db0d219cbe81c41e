//! A crew at work: operators at a desk, each in a thread of its own. And hashing in as many threads as there are
//! processors.
#![tactic(auto)]

mod desk_crew;
mod processors;

pub use desk_crew::crew_at_desk;
pub use processors::Processors;
