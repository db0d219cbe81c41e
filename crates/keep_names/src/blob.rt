use crate::id::Id;

/// What a blob holds: a piece of a file, or a tree.
#[derive(Clone, Copy, Debug, PartialEq, Eq, PartialOrd, Ord, Hash)]
pub enum BlobType {
    Content,
    Tree,
}

/// A blob's name. Blobs of one id and two types are two blobs.
#[derive(Clone, Copy, Debug, PartialEq, Eq, PartialOrd, Ord, Hash)]
pub struct BlobId {
    pub id: Id,
    pub blob_type: BlobType,
}

impl BlobId {
    ghost use Rattle.std.specs.Prelude.{◌≡◌};
    ghost use Rattle.keep_names.specs.BlobId.{piece_of, tree_at};

    /// The piece of a file that has this id.
    pub fn content(id: Id) -> BlobId
        ensures { result ≡ piece_of id }
    {
        BlobId {
            id,
            blob_type: BlobType::Content,
        }
    }

    /// The tree that has this id.
    pub fn tree(id: Id) -> BlobId
        ensures { result ≡ tree_at id }
    {
        BlobId {
            id,
            blob_type: BlobType::Tree,
        }
    }
}

/// A blob, and where it stands in a pack, as the pack's header and the indexes say it.
#[derive(Clone, Copy, PartialEq, Eq, PartialOrd, Ord, Hash)]
pub struct Blob {
    pub blob: BlobId,
    /// How many bytes of the pack stand before it.
    pub offset: u64,
    /// How many bytes it has.
    pub length: u32,
}
