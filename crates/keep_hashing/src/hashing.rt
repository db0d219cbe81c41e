ghost use Rattle.std.specs.Prelude.{◌≡◌, IfOk, map};
ghost use Rattle.keep_names.specs.Sha256.{sha256};

use keep_names::{Id, id_of};
use std::alloc::{AllocError, Global};

/// Who hashes many pieces of bytes, a batch at a time.
pub trait Hashing {
    /// Tells how many bytes the batches to come have together, at most.
    fn begin(&mut self, bytes: u64);

    /// The SHA-256 of each piece of a batch, in their order.
    fn ids(&mut self, alloc: Global, pieces: &[&[u8]]) -> Result<Vec<Id>, AllocError>
        ensures { IfOk result (λ ids. map (λ id. id.0) ids.items ≡ map (λ piece. sha256 piece.now) pieces.now) };
}

/// Hashes one piece after another, and tells nobody.
#[derive(Clone, Copy, Drop)]
pub struct OneByOne;

impl Hashing for OneByOne {
    fn begin(&mut self, _bytes: u64) {}

    fn ids(&mut self, alloc: Global, pieces: &[&[u8]]) -> Result<Vec<Id>, AllocError> {
        let mut ids = Vec::with_capacity(alloc, pieces.len())?;
        for piece in pieces {
            ids.push(id_of(piece))?;
        }
        Ok(ids)
    }
}
