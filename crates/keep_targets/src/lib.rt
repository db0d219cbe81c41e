//! Where a restore writes, as any target that takes folders, files and links.
#![tactic(auto)]

mod attributes;
mod noted_call;
mod pieces;
mod target;
mod target_error;

pub use attributes::{Instant, Owner, Times};
pub use noted_call::NotedCall;
pub use pieces::Pieces;
pub use target::Target;
pub use target_error::{Short, TargetError};
