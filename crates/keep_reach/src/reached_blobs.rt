use keep_catalog::Spot;
use keep_names::{BlobId, Id};
use std::collections::BTreeMap;

/// Where a walk found a blob.
#[derive(Clone, Copy, PartialEq, Eq)]
pub struct ReachedBlob {
    /// How many levels of trees it has: none for a piece of a file.
    pub height: u16,
    /// Its chosen spot.
    pub spot: Spot,
    /// The least-named index that lists it there.
    pub index: Id,
}

/// Each reached blob, with where it was found.
pub type Reached = BTreeMap<BlobId, ReachedBlob>;
