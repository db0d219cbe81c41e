ghost use Rattle.std.specs.Prelude.{◌≡◌, ◌++◌, [], List, None, Ok, IfOk, OnOk, map};
ghost use Rattle.std.specs.List.{find};
ghost use Rattle.keep_docs.specs.Doc.{Answers};
ghost use Rattle.keep_names.specs.declared.blob.BlobId as the_blob;
ghost use Rattle.keep_repo.specs.Repository.{Repository};
ghost use Rattle.keep_plan.specs.Refusal.{unless, unread_first};
ghost use Rattle.keep_plan.specs.declared.plan_error.PlanError.TheVariants as the_error;
ghost use Rattle.keep_build.specs.Blobs.{BlobData};
ghost use Rattle.keep_build.specs.Stored.{stored_of};
ghost use Rattle.keep_build.specs.Storing.{Keeps};
ghost use Rattle.keep_archive.specs.Archive.{going_view, held_view};
ghost use Rattle.keep_archive.specs.Plans.{has_no_place, last_stored};

use crate::going::Going;
use crate::held::HeldBlob;
use keep_build::Storing;
use keep_catalog::Hashing;
use keep_names::{BlobId, BlobType, Id};
use keep_plan::{PlanError, Stored, Unreached};
use keep_view::View;
use std::alloc::{AllocError, Global};
use std::borrow::CowSlice;

/// What is stored of blobs that are held.
pub(crate) fn store_held<'a, H: Hashing>(
    alloc: Global,
    view: &View<'a>,
    held: &'a [HeldBlob],
    hashing: &mut H,
) -> Result<Stored, PlanError>
    ensures { Answers the_error.Memory (λ stored. stored) (unless (unread_first view.now.repo)
        (Ok (stored_of view.now.repo (map held_view held.now)))) result }
{
    let catalog = view.catalog(alloc)?;
    let mut storing = Storing::new(alloc, catalog);
    store_all(&mut storing, held)?;
    let stored = storing.finish(alloc, view.repo(), hashing)?;
    Ok(stored)
}

/// The id of the root's tree, and what is stored of what is left.
pub(crate) fn store_last<'a, H: Hashing>(
    alloc: Global,
    view: &View<'a>,
    going: &'a Going,
    hashing: &mut H,
) -> Result<(Id, Stored), PlanError>
    ensures { Answers the_error.Memory (λ made. made)
        (last_stored view.now.repo (going_view going.now)) result }
{
    let catalog = view.catalog(alloc)?;
    let text = going.place.folder.tree_text(alloc)?;
    if text.len() >= 4_294_967_296 {
        return Err(PlanError::Full);
    }
    let mut storing = Storing::new(alloc, catalog);
    let missing = claim_all(&mut storing, &going.blobs.named)?;
    if let Some(blob) = missing {
        return Err(PlanError::Reach(Unreached::MissingBlob(blob.id)));
    }
    store_all(&mut storing, &going.blobs.held)?;
    let tree = storing.put(BlobType::Tree, CowSlice::Owned(text))?;
    let stored = storing.finish(alloc, view.repo(), hashing)?;
    Ok((tree, stored))
}

/// Names blobs that are used where they are, up to the first that has no place.
fn claim_all(storing: &mut Storing, named: &[BlobId]) -> Result<Option<BlobId>, AllocError>
    ensures missing { IfOk result (λ missing. (r : Repository) → Keeps r [] [] storing.old
        → missing ≡ find (has_no_place r) named.now) }
    ensures kept { IfOk result (λ missing. missing ≡ None → (r : Repository) → Keeps r [] [] storing.old
        → Keeps r named.now [] storing.new) }
{
    for blob in named {
        let placed = storing.claim(*blob)?;
        if !placed {
            return Ok(Some(*blob));
        }
    }
    Ok(None)
}

/// Offers blobs that are held. None is hashed again.
fn store_all<'a>(storing: &mut Storing<'a>, held: &'a [HeldBlob]) -> Result<(), AllocError>
    ensures { OnOk result ((r : Repository) (named : List the_blob.BlobId) (offered : List BlobData)
        → Keeps r named offered storing.old → Keeps r named (offered ++ map held_view held.now) storing.new) }
{
    for one in held {
        storing.offer(one.blob, CowSlice::Borrowed(one.bytes.as_slice()))?;
    }
    Ok(())
}
