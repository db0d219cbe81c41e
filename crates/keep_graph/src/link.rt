use std::collections::BTreeSet;

/// A change in a graph of changes.
#[derive(Drop)]
pub struct Link {
    /// What it is called.
    pub label: String,
    /// The numbers of the changes that lean on it at once.
    pub leaning: BTreeSet<u64>,
}
