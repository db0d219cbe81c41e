use keep_names::{BlobType, Id};
use keep_patterns::Rests;
use std::collections::BTreeMap;

/// What is left of a tree.
#[derive(Clone, Copy)]
pub(crate) struct Left {
    /// Whether something in or below it goes.
    pub(crate) loses: bool,
    /// The tree that is left: another one, where something goes.
    pub(crate) tree: Id,
}

/// What a walk has come by.
#[derive(Drop)]
pub(crate) struct Walked {
    /// What is left of each tree that was walked over, for what was left open of the patterns there.
    pub(crate) left: BTreeMap<(Id, Rests), Left>,
    /// The trees that were written anew, in the order in which they were finished.
    pub(crate) finished: Vec<(BlobType, Vec<u8>)>,
}
