ghost use Rattle.std.specs.Prelude.{◌≡◌, IfOk, map};
ghost use Rattle.keep_names.specs.Sha256.{sha256};

use keep_hashing::Hashing;
use keep_names::{Id, id_of};
use rayon::prelude::*;
use std::alloc::{AllocError, Global};
use std::marker::PhantomData;
use std::sync::Wait;
use std::thread::Threads;

/// Hashes in as many threads as there are processors.
///
/// It is the leave to start threads, and to wait for them, that a handle gives, without the handle: it has no bytes, and each
/// thread may have it.
pub struct Processors<R> {
    of: PhantomData<R>,
}

impl<R: Threads> Processors<R> {
    /// In threads that this handle gives leave to start.
    pub fn of(_rt: &R) -> Processors<R> {
        Processors { of: PhantomData }
    }
}

impl<R> Clone for Processors<R> {
    fn clone(&self) -> Result<Processors<R>, AllocError> {
        Ok(*self)
    }
}

impl<R> Copy for Processors<R> {}

impl<R: Threads> Threads for Processors<R> {}

impl<R: Wait> Wait for Processors<R> {}

impl<R: Threads + Send + Sync> Hashing for Processors<R> {
    fn begin(&mut self, _bytes: u64) {}

    fn ids(&mut self, alloc: Global, pieces: &[&[u8]]) -> Result<Vec<Id>, AllocError> {
        ids_of(self, alloc, pieces)
    }
}

/// The SHA-256 of each piece, in their order.
fn ids_of(
    rt: &(impl Threads + Sync),
    alloc: Global,
    pieces: &[&[u8]],
) -> Result<Vec<Id>, AllocError>
    ensures { IfOk result (λ ids. map (λ id. id.0) ids.items ≡ map (λ piece. sha256 piece.now) pieces.now) }
{
    pieces
        .par_iter()
        .with_min_len(1)
        .map(
            |piece: &&[u8]| -> Id
                ensures { result ≡ record { 0 = sha256 piece.now.now } }
            { id_of(*piece) },
        )
        .collect(rt, alloc)
}
