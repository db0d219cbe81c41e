ghost use Rattle.std.specs.Prelude.{map};
ghost use Rattle.keep_docs.specs.Doc.{Answers};
ghost use Rattle.keep_build.specs.Stored.{store_of};
ghost use Rattle.keep_build.specs.Storing.{given};
ghost use Rattle.keep_plan.specs.declared.plan_error.PlanError.TheVariants.{Memory};

use crate::storing::Storing;
use keep_catalog::OneByOne;
use keep_names::BlobType;
use keep_plan::{PlanError, Stored};
use keep_view::View;
use std::alloc::Global;
use std::borrow::CowSlice;

/// What is stored of these blobs in the repository of the view, and what that relies on. A blob that has a
/// place there in an unmarked pack, or that comes a second time, isn't stored again.
pub fn store<'a>(
    alloc: Global,
    view: &View<'a>,
    blobs: &'a [(BlobType, Vec<u8>)],
) -> Result<Stored, PlanError>
    ensures { Answers Memory (λ stored. stored) (store_of view.now.repo (map given blobs.now)) result }
{
    let catalog = view.catalog(alloc)?;
    let mut storing = Storing::new(alloc, catalog);
    for (blob_type, bytes) in blobs {
        storing.put(*blob_type, CowSlice::Borrowed(bytes))?;
    }
    Ok(storing.finish(alloc, view.repo(), &mut OneByOne)?)
}
