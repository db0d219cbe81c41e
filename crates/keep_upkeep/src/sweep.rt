ghost use Rattle.std.specs.Prelude.{◌≡◌, ◌++◌, ◌+ℤ◌, [], ◌∷◌, pos, filter, int_le, IfOk, OnOk, map};
ghost use Rattle.std.specs.BTreeSet.{contains};
ghost use Rattle.std.specs.List.{list_any};
ghost use Rattle.keep_docs.specs.Doc.{Answers};
ghost use Rattle.keep_names.specs.Orders.{id_cmp};
ghost use Rattle.keep_names.specs.declared.id.Id as the_id;
ghost use Rattle.keep_index.specs.Index.{index_view, pack_view};
ghost use Rattle.keep_index.specs.Joining.{joined};
ghost use Rattle.keep_change.specs.Filling.{has_pack};
ghost use Rattle.keep_change.specs.Lists.{marked_packs};
ghost use Rattle.keep_catalog.specs.Files.{packs_view};
ghost use Rattle.keep_change.specs.Marks.{pack_mark};
ghost use Rattle.keep_view.specs.Planned.{IsPlannedOn};
ghost use Rattle.keep_plan.specs.declared.plan_error.PlanError.TheVariants as the_error;
ghost use Rattle.keep_upkeep.specs.Reindexing.{other_indexes};
ghost use Rattle.keep_upkeep.specs.Sweep.{left_of, listing_gone, names_of, sweep_change, sweep_of};
ghost use Rattle.keep_upkeep.specs.Sweep as spec;

use crate::reindexing::{index_files, other_indexes, reindexed};
use crate::upkeep_laws::a_planned_sweep_can_be_made;
use keep_catalog::Catalog;
use keep_change::{Change, Listed, PackMark, Planned, StoredFile};
use keep_index::{Index, IndexedPack, join, without_packs};
use keep_names::{Id, Kind};
use keep_plan::{PlanError, put_files};
use keep_repo::{Mark, Repo};
use keep_view::View;
use std::alloc::{AllocError, Global};
use std::collections::{BTreeMap, BTreeSet};

/// The change that sweeps the packs that are marked and have waited so many seconds by now: it drops those that are
/// there, and clears their marks. What is left of the indexes that list one is joined into a new one.
///
/// The refusals in their order: `Unread`, `NothingToDo`.
pub fn plan_sweep(alloc: Global, view: &View, now: i64, wait: u64) -> Result<Planned, PlanError>
    ensures change { Answers the_error.Memory (λ planned. planned.change)
        (sweep_change view.now.repo now wait) result }
    ensures planned { IfOk result (IsPlannedOn view.now) }
{
    a_planned_sweep_can_be_made();
    let catalog = view.catalog(alloc)?;
    let change = sweep_waited(alloc, view.repo(), &catalog, now, wait)?;
    Ok(Planned {
        change,
        seen: view.length(),
    })
}

/// The change that sweeps the packs whose marks have waited, unless there are none.
fn sweep_waited(
    alloc: Global,
    repo: &Repo,
    catalog: &Catalog,
    now: i64,
    wait: u64,
) -> Result<Change, PlanError>
    requires { catalog.now ≡ repo.now }
    ensures { Answers the_error.Memory (λ change. change)
        (sweep_of repo.now (spec.waited_marks repo.now now wait)) result }
{
    let marks = waited_marks(alloc, repo, now, wait)?;
    if marks.is_empty() {
        return Err(PlanError::NothingToDo);
    }
    let change = sweep(alloc, repo, catalog, marks)?;
    Ok(change)
}

/// The marks that have waited, by pack.
#[tactic(auto, unfolding(crate::specs::Sweep::waited_marks))]
fn waited_marks(
    alloc: Global,
    repo: &Repo,
    now: i64,
    wait: u64,
) -> Result<Vec<PackMark>, AllocError>
    ensures { IfOk result (λ marks. marks.items ≡ spec.waited_marks repo.now now wait) }
{
    let marks = repo.marks()?;
    let mut waited = Vec::new(alloc);
    for entry in &marks {
        put_waited(*entry, now, wait, &mut waited)?;
    }
    Ok(waited)
}

/// Puts the mark of the pack behind the others, if it has waited.
fn put_waited(
    entry: (Id, Mark),
    now: i64,
    wait: u64,
    waited: &mut Vec<PackMark>,
) -> Result<(), AllocError>
    ensures { OnOk result (waited.new.items
        ≡ waited.old.items ++ filter (λ m. spec.has_waited now wait m.mark) (pack_mark entry ∷ [])) }
{
    let (pack, mark) = entry;
    if has_waited(mark.moment, now, wait) {
        waited.push(PackMark { pack, mark })?;
    }
    Ok(())
}

/// Whether so many seconds have gone by since the moment.
fn has_waited(moment: i64, now: i64, wait: u64) -> bool
    ensures { result ≡ int_le (moment +ℤ pos wait) now }
{
    moment as i128 + wait as i128 <= now as i128
}

/// The change that sweeps the packs of these marks.
fn sweep(
    alloc: Global,
    repo: &Repo,
    catalog: &Catalog,
    marks: Vec<PackMark>,
) -> Result<Change, AllocError>
    requires { catalog.now ≡ repo.now }
    ensures { IfOk result (λ change. change ≡ spec.sweeping repo.now marks.items) }
{
    let packs = packs_of(alloc, &marks)?;
    let (names, left) = leave(alloc, catalog.indexes(), &packs)?;
    let built = index_files(alloc, &left)?;
    let others = other_indexes(alloc, &built, &names)?;
    let mut drops = Vec::new(alloc);
    put_files(repo, Kind::Pack, &packs, &mut drops)?;
    put_files(repo, Kind::Index, &others, &mut drops)?;
    let change = reindexed(alloc, repo, built, drops)?;
    Ok(clearing(change, marks))
}

/// The change that also clears these marks.
fn clearing(change: Change, marks: Vec<PackMark>) -> Change
    ensures { result ≡ record change { clears = marks.items } }
{
    let mut change = change;
    change.clears = Listed::from_vec(marks);
    change
}

/// The packs of these marks.
fn packs_of(alloc: Global, marks: &[PackMark]) -> Result<Vec<Id>, AllocError>
    ensures { IfOk result (λ packs. packs.items ≡ marked_packs marks.now) }
{
    marks.iter().map(|mark| mark.pack).collect(alloc)
}

/// The names of the indexes that list one of these packs, and the join of what is left of them.
fn leave(
    alloc: Global,
    indexes: &BTreeMap<Id, Vec<IndexedPack>>,
    packs: &[Id],
) -> Result<(Vec<Id>, Index), AllocError>
    ensures names { IfOk result (λ made. made.0.items
        ≡ names_of (listing_gone (has_pack packs.now) (map packs_view indexes.now.entries))) }
    ensures left { IfOk result (λ made. index_view made.1
        ≡ joined (left_of (has_pack packs.now) (listing_gone (has_pack packs.now) (map packs_view indexes.now.entries)))) }
{
    let gone = set_of(alloc, packs)?;
    let mut names = Vec::new(alloc);
    let mut left = Vec::new(alloc);
    for (index, listed) in indexes {
        put_left(alloc, *index, listed, &gone, &mut names, &mut left)?;
    }
    let index = join(alloc, &left)?;
    Ok((names, index))
}

/// These packs, to look them up.
fn set_of(alloc: Global, packs: &[Id]) -> Result<BTreeSet<Id>, AllocError>
    ensures { IfOk result (λ set. (pack : the_id.Id) → contains id_cmp set pack ≡ has_pack packs.now pack) }
{
    packs.iter().copied().collect(alloc)
}

/// Puts the index's name and what is left of it behind the others, if it lists a pack that goes.
fn put_left(
    alloc: Global,
    index: Id,
    packs: &[IndexedPack],
    gone: &BTreeSet<Id>,
    names: &mut Vec<Id>,
    left: &mut Vec<Index>,
) -> Result<(), AllocError>
    ensures names { OnOk result (names.new.items ≡ names.old.items
        ++ names_of (listing_gone (contains id_cmp gone.now) ((index, map pack_view packs.now) ∷ []))) }
    ensures left { OnOk result (map index_view left.new.items ≡ map index_view left.old.items
        ++ left_of (contains id_cmp gone.now)
        (listing_gone (contains id_cmp gone.now) ((index, map pack_view packs.now) ∷ []))) }
{
    if !lists_gone(packs, gone) {
        return Ok(());
    }
    let packs = without_packs(alloc, packs, gone)?;
    left.push(Index { packs })?;
    names.push(index)?;
    Ok(())
}

/// Whether one of the packs goes.
fn lists_gone(packs: &[IndexedPack], gone: &BTreeSet<Id>) -> bool
    ensures { result ≡ list_any (λ pack. contains id_cmp gone.now pack.id) packs.now }
{
    packs.iter().any(|pack| gone.contains(&pack.id))
}
