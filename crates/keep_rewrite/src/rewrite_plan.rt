ghost use Rattle.std.specs.Prelude.{◌≡◌, ◌≢◌, [], Some, map, IfErr, IfOk, OnOk};
ghost use Rattle.keep_docs.specs.Doc.{Answers};
ghost use Rattle.keep_reach.specs.Snapshots.{refusals_of};
ghost use Rattle.keep_patterns.specs.Parsing.{pattern_view};
ghost use Rattle.keep_snap.specs.Facts.{facts_view};
ghost use Rattle.keep_view.specs.Planned.{IsPlannedOn};
ghost use Rattle.keep_build.specs.Stored.{store_of};
ghost use Rattle.keep_build.specs.Storing.{given};
ghost use Rattle.keep_plan.specs.Refusal.{unreached_first};
ghost use Rattle.keep_plan.specs.declared.plan_error.PlanError.TheVariants as the_error;
ghost use Rattle.keep_rewrite.specs.Rewriting.{finished_for, retreed_of, rewrite_change, rewriting_of};
ghost use Rattle.keep_rewrite.specs.Walking.{AreReached};

use crate::retreed::retreed;
use crate::rewrite_law::a_planned_rewrite_can_be_made;
use crate::rewrite_walk::Walk;
use crate::rewritten_files::Rewritten;
use keep_build::store;
use keep_catalog::Catalog;
use keep_change::Planned;
use keep_names::{BlobType, Id};
use keep_patterns::Pattern;
use keep_plan::{Filter, PlanError, Stored};
use keep_reach::reach_all;
use keep_snap::SnapFacts;
use keep_view::View;
use std::alloc::{AllocError, Global};

/// The change that takes what one of the patterns matches, with all below it, out of the snapshots that the filter
/// takes. For each from which something goes a new snapshot is added that says which one it was made of. The old one is
/// dropped if it is to be forgotten, else it stays, and the new one has the tag `rewrite`.
///
/// The refusals in their order: `Unread`, `Reach` of the first of the snapshots that has one, `Full`, `SnapshotThere`,
/// which two that become one are too, `NothingToDo`.
pub fn plan_rewrite(
    alloc: Global,
    view: &View,
    filter: &Filter,
    patterns: &[Pattern],
    forget: bool,
) -> Result<Planned, PlanError>
    ensures change { Answers the_error.Memory (λ planned. planned.change)
        (rewrite_change view.now.repo filter.now.rule (map pattern_view patterns.now) forget) result }
    ensures planned { IfOk result (IsPlannedOn view.now) }
{
    a_planned_rewrite_can_be_made();
    let catalog = view.catalog(alloc)?;
    let taken = filter.taken(alloc, &catalog)?;
    ask_reach(alloc, &catalog, &taken)?;
    let walk = Walk {
        alloc,
        catalog: &catalog,
        patterns,
    };
    plan_of(&walk, view, forget, &taken)
}

/// Nothing, if all that the snapshots reach can be had.
fn ask_reach(alloc: Global, catalog: &Catalog, taken: &[SnapFacts]) -> Result<(), PlanError>
    ensures had { OnOk result (refusals_of catalog.now (map (λ s. s.name) (map facts_view taken.now)) ≡ []) }
    ensures refused { IfErr result (λ error. error ≢ the_error.Memory
        → unreached_first (refusals_of catalog.now (map (λ s. s.name) (map facts_view taken.now))) ≡ Some error) }
{
    let names = names_of(alloc, taken)?;
    let _reached = reach_all(alloc, catalog, &names)?;
    Ok(())
}

fn names_of(alloc: Global, taken: &[SnapFacts]) -> Result<Vec<Id>, AllocError>
    ensures { IfOk result (λ names. names.items ≡ map (λ s. s.name) (map facts_view taken.now)) }
{
    let mut names = Vec::with_capacity(alloc, taken.len())?;
    for facts in taken {
        names.push(facts.name)?;
    }
    Ok(names)
}

/// The change where these snapshots are taken, by the walk over their trees.
fn plan_of(
    walk: &Walk,
    view: &View,
    forget: bool,
    taken: &[SnapFacts],
) -> Result<Planned, PlanError>
    requires catalog { walk.now.catalog.now ≡ view.now.repo }
    requires reached { AreReached view.now.repo (map facts_view taken.now) }
    ensures change { Answers the_error.Memory (λ planned. planned.change)
        (rewriting_of view.now.repo forget
        (retreed_of view.now.repo (map pattern_view walk.now.patterns.now) (map facts_view taken.now))
        (store_of view.now.repo
        (finished_for view.now.repo (map pattern_view walk.now.patterns.now) (map facts_view taken.now)))) result }
    ensures seen { IfOk result (λ planned. planned.seen ≡ view.now.length) }
{
    let (retreed, trees) = retreed(walk, taken)?;
    let stored = stored_trees(walk.alloc, view, &trees)?;
    let rewritten = Rewritten { retreed, forget };
    let change = rewritten.change(walk.alloc, view.repo(), walk.catalog, stored)?;
    Ok(Planned {
        change,
        seen: view.length(),
    })
}

/// What is stored of trees.
fn stored_trees(
    alloc: Global,
    view: &View,
    trees: &[(BlobType, Vec<u8>)],
) -> Result<Stored, PlanError>
    ensures { Answers the_error.Memory (λ stored. stored) (store_of view.now.repo (map given trees.now)) result }
{
    store(alloc, view, trees)
}
