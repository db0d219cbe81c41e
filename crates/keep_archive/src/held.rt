ghost use Rattle.std.specs.Prelude.{◌≡◌, false};
ghost use Rattle.keep_names.specs.Sha256.{sha256};
ghost use Rattle.keep_build.specs.Blobs.{is_full};

use keep_catalog::Hashing;
use keep_names::{BlobId, BlobType, Id, id_of};
use std::alloc::{AllocError, Global};

/// A blob that waits to be stored, under its own name.
#[derive(Drop)]
pub struct HeldBlob {
    pub(crate) blob: BlobId,
    pub(crate) bytes: Vec<u8>,
    pub ghost own: { blob.id.0 ≡ sha256 bytes.items },
    pub ghost fits: { is_full (blob.blob_type, bytes.items) ≡ false },
}

impl HeldBlob {
    ghost use Rattle.keep_archive.specs.Archive.{held_view};
    ghost use Rattle.keep_archive.specs.Steps.{piece as piece_data};
    ghost use Rattle.keep_build.specs.Blobs.{blob_id_of};

    /// The blob of these bytes. They are hashed here, and never again.
    pub(crate) fn of(blob_type: BlobType, bytes: Vec<u8>) -> HeldBlob
        requires { is_full (blob_type, bytes.items) ≡ false }
        ensures value { held_view result ≡ (blob_type, bytes.items) }
        ensures name { result.blob ≡ blob_id_of (blob_type, bytes.items) }
    {
        let id = id_of(bytes.as_slice());
        HeldBlob {
            blob: BlobId { id, blob_type },
            bytes,
        }
    }

    /// The piece of a file that has this id.
    pub(crate) fn piece(id: Id, bytes: Vec<u8>) -> HeldBlob
        requires own { id.0 ≡ sha256 bytes.items }
        requires fits { is_full (piece_data bytes.items) ≡ false }
        ensures value { held_view result ≡ piece_data bytes.items }
        ensures name { result.blob ≡ blob_id_of (piece_data bytes.items) }
    {
        HeldBlob {
            blob: BlobId {
                id,
                blob_type: BlobType::Content,
            },
            bytes,
        }
    }

    /// Its name.
    pub fn name(&self) -> BlobId
        ensures { result ≡ blob_id_of (held_view self.now) }
    {
        self.blob
    }

    /// The SHA-256 of these bytes, which is known where they are this blob's.
    fn id_for(&self, bytes: &[u8]) -> Id
        ensures { result.0 ≡ sha256 bytes.now }
    {
        if bytes == self.bytes.as_slice() {
            self.name().id
        } else {
            id_of(bytes)
        }
    }
}

/// Hashes no bytes that are those of a blob that is held.
#[derive(Drop)]
pub struct KnownHashing<'a> {
    held: &'a HeldBlob,
}

impl<'a> KnownHashing<'a> {
    /// Where it is this blob that comes again.
    pub fn of(held: &'a HeldBlob) -> KnownHashing<'a>
        ensures { result.held.now ≡ held.now }
    {
        KnownHashing { held }
    }
}

impl Hashing for KnownHashing<'_> {
    fn begin(&mut self, _bytes: u64) {}

    fn ids(&mut self, alloc: Global, pieces: &[&[u8]]) -> Result<Vec<Id>, AllocError> {
        let mut ids = Vec::with_capacity(alloc, pieces.len())?;
        for piece in pieces {
            ids.push(self.held.id_for(piece))?;
        }
        Ok(ids)
    }
}
