ghost use Rattle.std.specs.Prelude.{◌≡◌, ◌++◌, [], ◌∷◌, None, map, IfErr, IfOk, OnOk};
ghost use Rattle.keep_names.specs.BlobId.{tree_at};
ghost use Rattle.keep_reach.specs.Snapshots.{refusal_from};
ghost use Rattle.keep_patterns.specs.Parsing.{pattern_view};
ghost use Rattle.keep_snap.specs.Facts.{facts_view};
ghost use Rattle.keep_plan.specs.declared.plan_error.PlanError.TheVariants.{Memory};
ghost use Rattle.keep_build.specs.Storing.{given};
ghost use Rattle.keep_rewrite.specs.Finishing.{Finishes, StandsFor};
ghost use Rattle.keep_rewrite.specs.Rewriting.{finished_for, retreed_of};
ghost use Rattle.keep_rewrite.specs.Walking.{AreReached, IsRight, trees_of};

use crate::left::Walked;
use crate::rewrite_walk::Walk;
use keep_names::{BlobType, Id};
use keep_patterns::Rests;
use keep_plan::PlanError;
use keep_reach::levels;
use keep_snap::SnapFacts;
use std::collections::BTreeMap;

/// The names of the snapshots from which something goes, with the trees that are left, and the trees that are written
/// anew for that, each once.
pub(crate) fn retreed(
    walk: &Walk,
    taken: &[SnapFacts],
) -> Result<(Vec<(Id, Id)>, Vec<(BlobType, Vec<u8>)>), PlanError>
    requires { AreReached walk.now.catalog.now (map facts_view taken.now) }
    ensures retreed { IfOk result (λ made. made.0.items
        ≡ retreed_of walk.now.catalog.now (map pattern_view walk.now.patterns.now) (map facts_view taken.now)) }
    ensures trees { IfOk result (λ made. StandsFor
        (finished_for walk.now.catalog.now (map pattern_view walk.now.patterns.now) (map facts_view taken.now))
        (map given made.1.items)) }
    ensures refused { IfErr result (λ error. error ≡ Memory) }
{
    let mut walked = Walked {
        left: BTreeMap::new(walk.alloc),
        finished: Vec::new(walk.alloc),
    };
    let mut retreed = Vec::new(walk.alloc);
    for facts in taken {
        retree_one(walk, facts, &mut retreed, &mut walked)?;
    }
    let Walked { left: _, finished } = walked;
    Ok((retreed, finished))
}

/// Puts the name of the snapshot and the tree that is left behind the others, if something goes.
fn retree_one(
    walk: &Walk,
    facts: &SnapFacts,
    retreed: &mut Vec<(Id, Id)>,
    walked: &mut Walked,
) -> Result<(), PlanError>
    requires had { refusal_from walk.now.catalog.now (tree_at (facts_view facts.now).tree) ≡ None }
    requires before { IsRight walk.now.catalog.now (map pattern_view walk.now.patterns.now) walked.old }
    ensures retreed { OnOk result (retreed.new.items ≡ retreed.old.items
        ++ retreed_of walk.now.catalog.now (map pattern_view walk.now.patterns.now) (facts_view facts.now ∷ [])) }
    ensures trees { OnOk result (Finishes (trees_of walked.old) (trees_of walked.new)
        (finished_for walk.now.catalog.now (map pattern_view walk.now.patterns.now) (facts_view facts.now ∷ []))) }
    ensures after { OnOk result (IsRight walk.now.catalog.now (map pattern_view walk.now.patterns.now) walked.new) }
    ensures refused { IfErr result (λ error. error ≡ Memory) }
{
    let rests = Rests::opening(walk.alloc, walk.patterns)?;
    let left = walk.leave(levels(), facts.tree, rests, walked)?;
    if left.loses {
        retreed.push((facts.name, left.tree))?;
    }
    Ok(())
}
