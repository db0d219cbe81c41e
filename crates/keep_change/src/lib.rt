//! Changes of a repository: what they ask of it, what they make of it, and how they are taken back.
#![tactic(auto)]

mod change;
mod change_laws;
mod effect;
mod holder;
mod listed;
mod marks;
mod meets;
mod member;
mod outline;
mod readiness;
mod shared_change;
mod stored_file;
mod touch;
mod turn;
mod well_formedness;

pub use change::{Change, PackMark, Planned};
pub use change_laws::{
    redo_is_exact, results_follow_the_lists, sorted_lists_are_well_formed, taking_back_restores,
    undo_is_exact, what_is_asked_is_met, written_facets_turn,
};
pub use holder::Holder;
pub use listed::Listed;
pub use marks::marks_of;
pub use member::Member;
pub use outline::{Outline, What};
pub use shared_change::SharedChange;
pub use stored_file::StoredFile;
pub use turn::Turn;
