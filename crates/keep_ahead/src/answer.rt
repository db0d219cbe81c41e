ghost use Rattle.std.specs.Prelude.{string_bytes};
ghost use Rattle.keep_ahead.specs.Answer.{IsTold};

use crate::hashed::HashedPiece;
use keep_sources::{FolderListing, Source, Stat, Why};
use std::marker::PhantomData;

/// Bytes of a file, as a read gave them.
#[derive(Drop)]
pub(crate) struct ReadBytes {
    pub(crate) bytes: Vec<u8>,
    /// The pieces of them that were hashed; none where they weren't.
    pub(crate) hashed: Vec<HashedPiece>,
}

/// What a call of a source answered.
#[derive(Drop)]
pub(crate) enum Answer {
    Look(Result<Stat, Why>),
    FolderList(Result<FolderListing, Why>),
    Open(Result<(), Why>),
    /// Of a read from this offset on.
    Read(u64, Result<ReadBytes, Why>),
}

/// What a call of this source answered for a path.
#[derive(Drop)]
pub(crate) struct Told<S: Source> {
    pub(crate) path: String,
    pub(crate) answer: Answer,
    pub(crate) of: PhantomData<S>,
    pub ghost told: { ∥ IsTold S.told (string_bytes path) answer ∥₁ },
}
