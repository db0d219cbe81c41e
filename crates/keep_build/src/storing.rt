ghost use Rattle.std.specs.Prelude.{◌≡◌, ◌≢◌, true, false, List, [], ◌∷◌, ◌++◌, Err, IfErr, IfOk, OnOk, is_some};
ghost use Rattle.keep_names.specs.Sha256.{sha256};
ghost use Rattle.keep_names.specs.declared.blob.BlobId as the_blob;
ghost use Rattle.keep_repo.specs.Repository.{Repository};
ghost use Rattle.keep_catalog.specs.Places.{chosen_listing};
ghost use Rattle.keep_plan.specs.declared.plan_error.PlanError.TheVariants.{Full, Memory};
ghost use Rattle.keep_build.specs.Blobs.{BlobData, blob_id_of, is_full};
ghost use Rattle.keep_build.specs.Stored.{stored_with};
ghost use Rattle.keep_build.specs.Storing.{AreKept, Keeps, text_bytes};

use crate::packs::built_files;
use keep_catalog::{Catalog, Hashing};
use keep_names::{BlobId, BlobType, Id, id_of};
use keep_plan::{PlanError, Reuses, Stored, store_built};
use keep_repo::Repo;
use std::alloc::{AllocError, Global};
use std::borrow::CowSlice;
use std::collections::BTreeSet;

/// The bytes of a blob. They are lent until they are written into a pack, where somebody else has them.
pub type Text<'a> = CowSlice<'a, u8, Global>;

/// A new blob, under its name.
pub(crate) type NewBlob<'a> = (BlobId, Text<'a>);

/// What blobs that are offered one after the other come to. Those that aren't new are let go at once.
#[derive(Drop)]
pub struct Storing<'a> {
    pub(crate) catalog: Catalog<'a>,
    /// The blobs that were offered.
    pub(crate) seen: BTreeSet<BlobId>,
    /// The new pieces of files, in their order.
    pub(crate) pieces: Vec<NewBlob<'a>>,
    /// The new trees, in theirs.
    pub(crate) trees: Vec<NewBlob<'a>>,
    /// What the others rest on.
    pub(crate) reuses: Reuses,
}

impl<'a> Storing<'a> {
    /// No blob is named or offered yet.
    pub fn new(alloc: Global, catalog: Catalog<'a>) -> Storing<'a>
        ensures { Keeps catalog.entry [] [] result }
    {
        Storing {
            catalog,
            seen: BTreeSet::new(alloc),
            pieces: Vec::new(alloc),
            trees: Vec::new(alloc),
            reuses: Reuses::new(alloc),
        }
    }

    /// Names a blob that is used where it is, and tells whether it has a place. Blobs are named before any is
    /// offered.
    pub fn claim(&mut self, blob: BlobId) -> Result<bool, AllocError>
        ensures placed { IfOk result (λ there. (r : Repository) (named : List the_blob.BlobId)
            → Keeps r named [] self.old → there ≡ is_some (chosen_listing r blob)) }
        ensures kept { OnOk result ((r : Repository) (named : List the_blob.BlobId) → Keeps r named [] self.old
            → Keeps r (named ++ blob ∷ []) [] self.new) }
    {
        match self.catalog.reuse(blob) {
            Some((pack, index)) => {
                self.reuses.rest_on(pack, index)?;
                Ok(true)
            }
            None => Ok(false),
        }
    }

    /// Offers one more blob, and tells its id. It is hashed once. One that is too long is refused before memory is
    /// taken.
    pub fn put(&mut self, blob_type: BlobType, bytes: Text<'a>) -> Result<Id, PlanError>
        ensures kept { OnOk result ((r : Repository) (named : List the_blob.BlobId) (offered : List BlobData)
            → Keeps r named offered self.old
            → Keeps r named (offered ++ (blob_type, text_bytes bytes.entry) ∷ []) self.new) }
        ensures id { IfOk result (λ id. id ≡ (blob_id_of (blob_type, text_bytes bytes.entry)).id) }
        ensures refused { IfErr result (λ error. error ≢ Memory
            → (error ≡ Full) × (is_full (blob_type, text_bytes bytes.entry) ≡ true)) }
        ensures full { is_full (blob_type, text_bytes bytes.entry) ≡ true → result ≡ Err Full }
    {
        if bytes.len() >= 4_294_967_296 {
            return Err(PlanError::Full);
        }
        let id = id_of(bytes.as_slice());
        self.offer(BlobId { id, blob_type }, bytes)?;
        Ok(id)
    }

    /// What is stored of all that was offered, where what was named is used where it is. Packs are hashed by this.
    pub fn finish<H: Hashing>(
        self,
        alloc: Global,
        repo: &Repo,
        hashing: &mut H,
    ) -> Result<Stored, AllocError>
        requires { (named : List the_blob.BlobId) × (offered : List BlobData) × Keeps repo.now named offered self }
        ensures { IfOk result (λ stored. (named : List the_blob.BlobId) (offered : List BlobData)
            → Keeps repo.now named offered self.entry → stored ≡ stored_with repo.now named offered) }
    {
        let Storing {
            pieces,
            trees,
            reuses,
            ..
        } = self;
        let files = built_files(alloc, &pieces, &trees, hashing)?;
        store_built(alloc, repo, files, reuses)
    }

    /// Offers one more blob, whose name is known and isn't made again.
    pub fn offer(&mut self, blob: BlobId, bytes: Text<'a>) -> Result<(), AllocError>
        requires own { blob.id.0 ≡ sha256 (text_bytes bytes) }
        requires fits { is_full (blob.blob_type, text_bytes bytes) ≡ false }
        ensures { OnOk result ((r : Repository) (named : List the_blob.BlobId) (offered : List BlobData)
            → Keeps r named offered self.old
            → Keeps r named (offered ++ (blob.blob_type, text_bytes bytes.entry) ∷ []) self.new) }
    {
        if self.seen.contains(&blob) {
            return Ok(());
        }
        self.seen.insert(blob)?;
        match self.catalog.reuse(blob) {
            Some((pack, index)) => self.reuses.rest_on(pack, index),
            None => match blob.blob_type {
                BlobType::Content => keep(&mut self.pieces, blob, bytes),
                BlobType::Tree => keep(&mut self.trees, blob, bytes),
            },
        }
    }
}

/// Keeps a new blob.
fn keep<'a>(kept: &mut Vec<NewBlob<'a>>, blob: BlobId, bytes: Text<'a>) -> Result<(), AllocError>
    requires { blob.id.0 ≡ sha256 (text_bytes bytes) }
    ensures { OnOk result ((blobs : List BlobData) → AreKept blobs kept.old.items
        → AreKept (blobs ++ (blob.blob_type, text_bytes bytes.entry) ∷ []) kept.new.items) }
{
    kept.push((blob, bytes))?;
    Ok(())
}
