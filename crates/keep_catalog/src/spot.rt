use keep_names::{Blob, BlobId, Id};

/// Where bytes stand: in which pack, and where in it. Spots are in order by pack, offset and length.
#[derive(Clone, Copy, PartialEq, Eq, PartialOrd, Ord)]
pub struct Spot {
    pub pack: Id,
    /// How many bytes of the pack stand before it.
    pub offset: u64,
    /// How many bytes it has.
    pub length: u32,
}

/// A blob and the pack that it stands in, as an index and a pack's header list it.
#[derive(Clone, Copy, PartialEq, Eq, PartialOrd, Ord)]
pub struct PackedBlob {
    pub blob: BlobId,
    pub spot: Spot,
}

/// Where an index lists a blob. Listings of one blob are in order by spot, and then by index.
#[derive(Clone, Copy, PartialEq, Eq, PartialOrd, Ord)]
pub(crate) struct Listing {
    pub(crate) spot: Spot,
    pub(crate) index: Id,
}

impl PackedBlob {
    ghost use Rattle.std.specs.Prelude.{◌≡◌};
    ghost use Rattle.keep_catalog.specs.Places.{packed_of};

    /// A blob that stands in this pack.
    pub fn of(pack: Id, stored: Blob) -> PackedBlob
        ensures { result ≡ packed_of pack stored }
    {
        PackedBlob {
            blob: stored.blob,
            spot: Spot {
                pack,
                offset: stored.offset,
                length: stored.length,
            },
        }
    }
}
