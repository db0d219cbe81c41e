use keep_names::{Blob, Id};

/// What an index says of packs: which blobs they hold. A pack may stand twice, a blob too.
#[derive(PartialEq, Eq, Drop)]
pub struct Index {
    pub packs: Vec<IndexedPack>,
}

/// A pack as an index lists it. It may have no blobs.
#[derive(PartialEq, Eq, Drop)]
pub struct IndexedPack {
    pub id: Id,
    pub blobs: Vec<Blob>,
}
