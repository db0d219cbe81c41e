ghost use Rattle.std.specs.Prelude.{◌≡◌, ◌||◌, [], ◌∷◌, not, filter, IfOk, OnOk, map};
ghost use Rattle.std.specs.BTreeSet.{contains};
ghost use Rattle.std.specs.List.{list_any};
ghost use Rattle.std.specs.Ordering.{eq_by_cmp};
ghost use Rattle.keep_docs.specs.Doc.{Answers};
ghost use Rattle.keep_names.specs.Orders.{name_cmp};
ghost use Rattle.keep_names.specs.declared.file_name.FileName as the_name;
ghost use Rattle.keep_index.specs.Index.{Fits, index_view, pack_view};
ghost use Rattle.keep_catalog.specs.Files.{packs_view};
ghost use Rattle.keep_catalog.specs.Ordered.{in_order};
ghost use Rattle.keep_view.specs.Planned.{IsPlannedOn};
ghost use Rattle.keep_plan.specs.Storing.{is_there};
ghost use Rattle.keep_plan.specs.declared.plan_error.PlanError.TheVariants as the_error;
ghost use Rattle.keep_upkeep.specs.Repair.{absent_among, absent_listed, other_listings, repair_change};
ghost use Rattle.keep_upkeep.specs.Repair as spec;

use crate::reindexing::{has_index, index_files, other_indexes, reindexed};
use crate::upkeep_laws::a_planned_repair_can_be_made;
use keep_catalog::Catalog;
use keep_change::{Change, Listed, Planned, StoredFile};
use keep_index::{Index, IndexedPack};
use keep_names::{Blob, FileName, Id, Kind};
use keep_plan::{PlanError, names_in, put_files};
use keep_repo::{Facet, Repo};
use keep_view::View;
use std::alloc::{AllocError, Global};
use std::collections::{BTreeMap, BTreeSet};

/// The change that puts one index in the place of all others. It lists each pack that is there and can be read, with
/// what its header says. What can't be read is read past, and an index that can't be is dropped.
///
/// `NothingToDo` is its only refusal.
pub fn plan_repair(alloc: Global, view: &View) -> Result<Planned, PlanError>
    ensures change { Answers the_error.Memory (λ planned. planned.change) (repair_change view.now.repo) result }
    ensures planned { IfOk result (IsPlannedOn view.now) }
    // So it is safe, as the law has it.
    ensures fits { IfOk result (λ _. Fits (spec.packs_there view.now.repo)) }
{
    a_planned_repair_can_be_made();
    let catalog = view.read_past(alloc)?;
    let change = repair(alloc, view.repo(), &catalog)?;
    if is_idle(&change) {
        return Err(PlanError::NothingToDo);
    }
    Ok(Planned {
        change,
        seen: view.length(),
    })
}

/// Whether the change adds and drops nothing.
fn is_idle(change: &Change) -> bool
    ensures { result ≡ spec.is_idle change.now }
{
    change.adds.as_slice().is_empty() && change.drops.as_slice().is_empty()
}

/// The change, if it changes anything.
fn repair(alloc: Global, repo: &Repo, catalog: &Catalog) -> Result<Change, AllocError>
    requires { catalog.now ≡ repo.now }
    ensures change { IfOk result (λ change. change ≡ spec.repairing repo.now) }
    ensures fits { IfOk result (λ _. Fits (spec.packs_there repo.now)) }
{
    let index = packs_there(alloc, catalog)?;
    let built = index_files(alloc, &index)?;
    let absent = absent_packs(alloc, repo, &built, catalog.indexes())?;
    let ids = repo.ids(Kind::Index)?;
    let others = other_indexes(alloc, &built, &ids)?;
    let mut drops = Vec::new(alloc);
    put_files(repo, Kind::Index, &others, &mut drops)?;
    let change = reindexed(alloc, repo, built, drops)?;
    Ok(asking_absent(change, absent))
}

/// The change that also asks that these files are absent.
fn asking_absent(change: Change, absent: Vec<FileName>) -> Change
    ensures { result ≡ record change { absent = absent.items } }
{
    let mut change = change;
    change.absent = Listed::from_vec(absent);
    change
}

/// The packs that are there and can be read, by id, with what their headers say.
fn packs_there(alloc: Global, catalog: &Catalog) -> Result<Index, AllocError>
    ensures { IfOk result (λ index. index_view index ≡ spec.packs_there catalog.now) }
{
    let headers = catalog.headers(alloc)?;
    let packs = listed(alloc, headers)?;
    Ok(Index { packs })
}

/// What headers say, as an index says it.
fn listed(alloc: Global, headers: Vec<(Id, Vec<Blob>)>) -> Result<Vec<IndexedPack>, AllocError>
    ensures { IfOk result (λ packs. packs.items
        ≡ map (λ header. record { id = header.0; blobs = header.1 }) headers.items) }
{
    headers
        .into_iter()
        .map(|(id, blobs)| IndexedPack { id, blobs })
        .collect(alloc)
}

/// The packs that one of these indexes lists which isn't among the new files, and that aren't there, by name.
fn absent_packs(
    alloc: Global,
    repo: &Repo,
    built: &[StoredFile],
    indexes: &BTreeMap<Id, Vec<IndexedPack>>,
) -> Result<Vec<FileName>, AllocError>
    ensures { IfOk result (λ absent. absent.items
        ≡ in_order name_cmp (absent_listed repo.now (other_listings built.now (map packs_view indexes.now.entries)))) }
{
    let mut absent = BTreeSet::new(alloc);
    for (index, packs) in indexes {
        put_listed(repo, built, *index, packs, &mut absent)?;
    }
    names_in(alloc, absent)
}

/// Puts those among the others that this index lists.
fn put_listed(
    repo: &Repo,
    built: &[StoredFile],
    index: Id,
    packs: &[IndexedPack],
    absent: &mut BTreeSet<FileName>,
) -> Result<(), AllocError>
    ensures { OnOk result ((name : the_name.FileName) → contains name_cmp absent.new name
        ≡ (contains name_cmp absent.old name || list_any (eq_by_cmp name_cmp name)
        (absent_listed repo.now (other_listings built.now ((index, map pack_view packs.now) ∷ []))))) }
{
    if has_index(built, index) {
        return Ok(());
    }
    put_absent(repo, packs, absent)
}

/// Puts those of these packs among the others that aren't there.
fn put_absent(
    repo: &Repo,
    packs: &[IndexedPack],
    absent: &mut BTreeSet<FileName>,
) -> Result<(), AllocError>
    ensures { OnOk result ((name : the_name.FileName) → contains name_cmp absent.new name
        ≡ (contains name_cmp absent.old name || list_any (eq_by_cmp name_cmp name)
        (absent_among repo.now (map pack_view packs.now)))) }
{
    for pack in packs {
        put_if_absent(repo, FileName::pack(pack.id), absent)?;
    }
    Ok(())
}

/// Puts the name among the others, if there is no such file.
fn put_if_absent(
    repo: &Repo,
    file: FileName,
    absent: &mut BTreeSet<FileName>,
) -> Result<(), AllocError>
    ensures { OnOk result ((name : the_name.FileName) → contains name_cmp absent.new name
        ≡ (contains name_cmp absent.old name || list_any (eq_by_cmp name_cmp name)
        (filter (λ n. not (is_there repo.now n)) (file ∷ [])))) }
{
    if repo.facet_filled(Facet::File(file)) {
        return Ok(());
    }
    absent.insert(file)?;
    Ok(())
}
