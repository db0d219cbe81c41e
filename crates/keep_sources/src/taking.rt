ghost use Rattle.std.specs.Prelude.{◌≡◌, [], IfErr, IfOk, OnOk};
ghost use Rattle.keep_sources.specs.Took.{TookAll};

use crate::receives::{Receives, Stop};
use crate::scope::Scope;
use crate::skipped::{Skipped, Why};
use crate::source::{FolderListing, Source};
use std::alloc::{AllocError, Global};

/// How many folders lead to a node at most.
const MOST_LEVELS: u16 = 256;

/// How many bytes are read at once. They are hashed together.
const PIECE: usize = 1_048_576;

/// A walk over a source, which gives an archive what it meets.
#[derive(Drop)]
pub struct Taking<S, A> {
    pub(crate) alloc: Global,
    pub(crate) source: S,
    pub(crate) archive: A,
    pub(crate) skipped: Vec<Skipped>,
    pub(crate) piece: Vec<u8>,
}

impl<S: Source, A: Receives> Taking<S, A> {
    ghost use Rattle.keep_sources.specs.Walked.{archive_of, skipped_of, source_of};

    /// A walk that has taken nothing yet.
    pub fn new(alloc: Global, source: S, archive: A) -> Result<Taking<S, A>, AllocError>
        ensures archive { IfOk result (λ taking. archive_of taking ≡ archive) }
        ensures source { IfOk result (λ taking. source_of taking ≡ source) }
        ensures skipped { IfOk result (λ taking. skipped_of taking ≡ []) }
    {
        Ok(Taking {
            alloc,
            source,
            archive,
            skipped: Vec::new(alloc),
            piece: vec![in alloc; 0; PIECE]?,
        })
    }

    /// Takes all that lies below the root of the source, depth first, in the order of the names.
    pub fn take(&mut self, job: &Scope) -> Result<(), Stop>
        ensures { OnOk result (TookAll S.told A.gives job.now (A.seen (archive_of self.old)) (A.seen (archive_of self.new))
            (skipped_of self.old) (skipped_of self.new)) }
    {
        match self.list_root() {
            Ok(listing) => self.walk_listed(job, "", &listing, MOST_LEVELS),
            Err(why) => self.skip(String::new(self.alloc), why),
        }
    }

    fn list_root(&mut self) -> Result<FolderListing, Why>
        ensures listed { IfOk result (λ listing. S.told.listed [] listing) }
        ensures lost { IfErr result (λ why. S.told.lost [] why) }
        ensures archive { self.new.archive ≡ self.old.archive }
        ensures skipped { self.new.skipped ≡ self.old.skipped }
    {
        let seen = self.source.look("")?;
        self.source.list("", &seen)
    }

    /// What isn't taken, or not as it was seen.
    pub fn skipped(&self) -> &[Skipped]
        ensures { result.now ≡ skipped_of self.now }
    {
        self.skipped.as_slice()
    }

    /// The source and the archive again.
    pub fn into_parts(self) -> (S, A)
        ensures source { result.0 ≡ source_of self }
        ensures archive { result.1 ≡ archive_of self }
    {
        (self.source, self.archive)
    }
}
