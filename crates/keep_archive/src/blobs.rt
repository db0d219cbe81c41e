ghost use Rattle.std.specs.Prelude.{◌≡◌, ◌-◌, ◌^◌, map, min};
ghost use Rattle.std.specs.List.{sum_by};
ghost use Rattle.std.specs.Vec.{vec_len};

use crate::held::HeldBlob;
use keep_names::{BlobId, BlobType, Id};
use std::alloc::{AllocError, Global};

/// The blobs of what was given.
#[derive(Drop)]
pub(crate) struct Blobs {
    /// They have to have places.
    pub(crate) named: Vec<BlobId>,
    /// They wait to be stored.
    pub(crate) held: Vec<HeldBlob>,
    /// How many bytes these have, to 2^64 - 1.
    pub(crate) bytes: u64,
    pub ghost counted: { bytes ≡ min (2 ^ 64 - 1) (sum_by (λ held. vec_len held.bytes) held.items) },
}

impl Blobs {
    ghost use Rattle.std.specs.Prelude.{[], ◌∷◌, ◌++◌, IfOk};
    ghost use Rattle.keep_build.specs.Packs.{bytes_in};
    ghost use Rattle.keep_archive.specs.Archive.{blobs_view, held_view};
    ghost use Rattle.keep_archive.specs.Steps.{holding, naming};
    ghost use Rattle.keep_build.specs.Blobs.{blob_id_of};

    /// None yet.
    pub(crate) fn new(alloc: Global) -> Blobs
        ensures { blobs_view result ≡ record { named = []; held = [] } }
    {
        Blobs {
            named: Vec::new(alloc),
            held: Vec::new(alloc),
            bytes: 0,
        }
    }

    /// With one more that waits to be stored.
    pub(crate) fn hold(self, blob: HeldBlob) -> Result<Blobs, AllocError>
        ensures { IfOk result (λ blobs. blobs_view blobs ≡ holding (held_view blob ∷ []) (blobs_view self)) }
    {
        let Blobs {
            named,
            mut held,
            bytes,
        } = self;
        let bytes = bytes.saturating_add(blob.bytes.len() as u64);
        held.push(blob)?;
        Ok(Blobs { named, held, bytes })
    }

    /// With more pieces that have to have places.
    pub(crate) fn name(self, content: &[Id]) -> Result<Blobs, AllocError>
        ensures { IfOk result (λ blobs. blobs_view blobs ≡ naming content.now (blobs_view self)) }
    {
        let Blobs {
            mut named,
            held,
            bytes,
        } = self;
        for id in content {
            named.push(BlobId {
                id: *id,
                blob_type: BlobType::Content,
            })?;
        }
        Ok(Blobs { named, held, bytes })
    }

    /// What was held has to have places.
    pub(crate) fn let_go(self, alloc: Global) -> Result<Blobs, AllocError>
        ensures { IfOk result (λ blobs. blobs_view blobs ≡ record {
          named = (blobs_view self).named ++ map blob_id_of (blobs_view self).held;
          held = [];
        }) }
    {
        let Blobs {
            mut named,
            held,
            bytes: _,
        } = self;
        for one in &held {
            named.push(one.blob)?;
        }
        Ok(Blobs {
            named,
            held: Vec::new(alloc),
            bytes: 0,
        })
    }

    /// How many bytes wait to be stored.
    pub(crate) fn bytes_held(&self) -> u64
        ensures { result ≡ min (2 ^ 64 - 1) (bytes_in (blobs_view self.now).held) }
    {
        self.bytes
    }
}
