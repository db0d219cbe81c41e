//! What all planners share: why they refuse, the files that are there, and what becomes of files that they build and
//! of blobs that they use where they are; and filters, questions about snapshots that operators store under names, each
//! with its rule.
#![tactic(auto)]

mod built_files;
mod files_there;
mod filter;
mod pick;
mod plan_error;
mod plan_laws;
mod reuses;
mod stored;
mod unreached;

pub use built_files::{names_in, split_files, split_new};
pub use files_there::{put_file, put_files};
pub use filter::{AskFacts, Filter};
pub use pick::{Needs, Pick, has_path, has_tag, meets};
pub use plan_error::PlanError;
pub use plan_laws::{
    each_built_file_is_stored, each_use_is_recorded, refusals_keep_their_words,
    what_is_stored_can_be_made,
};
pub use reuses::Reuses;
pub use stored::{Stored, store_built};
pub use unreached::Unreached;
