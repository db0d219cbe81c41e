//! The laws on which changes keep a repository's snapshots whole, the last of them in words that ask nothing of the
//! formats of files.
#![tactic(auto)]

mod careful;
mod forms;
mod plans;
mod selections;
mod trees;
mod whole;

pub use careful::{careful_changes_are_safe, soundness_is_by_names, the_empty_repository_is_sound};
pub use forms::{
    covering_changes_are_careful, marking_changes_are_careful, relisting_changes_are_careful,
};
pub use plans::{
    backing_up_is_safe, built_files_support_their_blobs, forgetting_is_safe, marking_is_safe,
    recorded_uses_give_their_blobs, reindexing_is_safe, retagging_is_safe,
};
pub use selections::{
    commits_stay_sound, emptyings_stay_sound, filters_are_selections, selections_are_sound,
};
pub use trees::{built_trees_retree, kept_trees_retree_themselves, rewriting_is_safe};
pub use whole::{
    all_safe_changes_keep_whole, safe_changes_keep_whole, selections_are_whole,
    sound_repositories_are_whole,
};
