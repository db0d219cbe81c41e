ghost use Rattle.std.specs.Prelude.{◌≡◌, ◌++◌, [], ◌∷◌, None, false, map, IfErr, IfOk, OnOk, if◌then◌else◌};
ghost use Rattle.serde_json.specs.Written.{has_float};
ghost use Rattle.keep_names.specs.BlobId.{tree_at};
ghost use Rattle.keep_catalog.specs.Naming.{named_by, named_of};
ghost use Rattle.keep_reach.specs.Reach.{first_of, refusal_at};
ghost use Rattle.keep_tree.specs.Tree.{dir, node_view};
ghost use Rattle.keep_tree.specs.Written.{tree_data};
ghost use Rattle.keep_patterns.specs.Parsing.{pattern_view};
ghost use Rattle.keep_build.specs.Blobs.{id_of, tree_blob};
ghost use Rattle.keep_plan.specs.declared.plan_error.PlanError.TheVariants.{Memory};
ghost use Rattle.keep_rewrite.specs.Finishing.{Finishes};
ghost use Rattle.keep_rewrite.specs.Leaving.{Path, finished, loses, node_loses, nodes_finished, nodes_left, tree_left};
ghost use Rattle.keep_rewrite.specs.Walking.{IsLeft, IsRight, Leaves, trees_of};

use crate::left::{Left, Walked};
use keep_catalog::Catalog;
use keep_names::{BlobType, Id, id_of};
use keep_patterns::{Pattern, Rests, letters_of};
use keep_plan::PlanError;
use keep_tree::{Node, NodeKind, Tree, write_tree};
use std::alloc::{AllocError, Global};

/// A walk over the trees of a catalog that asks what goes by the patterns.
#[derive(Clone, Copy)]
pub(crate) struct Walk<'a> {
    pub(crate) alloc: Global,
    pub(crate) catalog: &'a Catalog<'a>,
    pub(crate) patterns: &'a [Pattern],
}

impl Walk<'_> {
    /// Tells what is left of the tree where this is left open, and writes anew what isn't yet. A tree is walked over
    /// once for each thing that is asked of it.
    #[cycle(walking)]
    pub(crate) fn leave(
        &self,
        levels: u16,
        tree: Id,
        rests: Rests,
        walked: &mut Walked,
    ) -> Result<Left, PlanError>
        requires had { refusal_at (named_by self.now.catalog.now) levels (tree_at tree) ≡ None }
        requires before { IsRight self.now.catalog.now (map pattern_view self.now.patterns.now) walked.old }
        requires stands { (at : Path) × Leaves (map pattern_view self.now.patterns.now) rests at }
        ensures left { IfOk result (IsLeft self.now.catalog.now (map pattern_view self.now.patterns.now)
            levels rests tree) }
        ensures trees { OnOk result ((at : Path) → Leaves (map pattern_view self.now.patterns.now) rests at
            → Finishes (trees_of walked.old) (trees_of walked.new)
            (finished self.now.catalog.now (map pattern_view self.now.patterns.now) levels at tree)) }
        ensures after { OnOk result (IsRight self.now.catalog.now (map pattern_view self.now.patterns.now)
            walked.new) }
        ensures refused { IfErr result (λ error. error ≡ Memory) }
    {
        let asked = (tree, rests);
        if let Some(left) = walked.left.get(&asked).copied() {
            return Ok(left);
        }
        let nodes = self.catalog.nodes(self.alloc, tree)?;
        let mut kept = Vec::new(self.alloc);
        let mut loses = false;
        for node in nodes {
            let lost = self.leave_node(levels - 1, &asked.1, node, &mut kept, walked)?;
            loses |= lost;
        }
        let left = finish(self.alloc, tree, loses, kept, walked)?;
        walked.left.insert(asked, left)?;
        Ok(left)
    }

    /// Puts the node behind those that are kept, with what is left of its tree, if it stays. Tells whether it goes, or
    /// something below it.
    #[cycle(walking)]
    fn leave_node(
        &self,
        levels: u16,
        rests: &Rests,
        node: Node,
        kept: &mut Vec<Node>,
        walked: &mut Walked,
    ) -> Result<bool, PlanError>
        requires had { first_of (refusal_at (named_by self.now.catalog.now) levels) (named_of (node_view node))
            ≡ None }
        requires before { IsRight self.now.catalog.now (map pattern_view self.now.patterns.now) walked.old }
        requires stands { (at : Path) × Leaves (map pattern_view self.now.patterns.now) rests.now at }
        ensures loses { IfOk result (λ lost. (at : Path)
            → Leaves (map pattern_view self.now.patterns.now) rests.now at
            → lost ≡ node_loses (map pattern_view self.now.patterns.now)
            (loses self.now.catalog.now (map pattern_view self.now.patterns.now) levels) at (node_view node)) }
        ensures kept { OnOk result ((at : Path) → Leaves (map pattern_view self.now.patterns.now) rests.now at
            → map node_view kept.new.items ≡ map node_view kept.old.items
            ++ nodes_left (map pattern_view self.now.patterns.now)
            (tree_left self.now.catalog.now (map pattern_view self.now.patterns.now) levels) at
            (node_view node ∷ [])) }
        ensures trees { OnOk result ((at : Path) → Leaves (map pattern_view self.now.patterns.now) rests.now at
            → Finishes (trees_of walked.old) (trees_of walked.new)
            (nodes_finished (map pattern_view self.now.patterns.now)
            (finished self.now.catalog.now (map pattern_view self.now.patterns.now) levels) at
            (node_view node ∷ []))) }
        ensures after { OnOk result (IsRight self.now.catalog.now (map pattern_view self.now.patterns.now)
            walked.new) }
        ensures refused { IfErr result (λ error. error ≡ Memory) }
    {
        let name = letters_of(self.alloc, node.name.as_str())?;
        if rests.takes(self.patterns, &name) {
            return Ok(true);
        }
        let NodeKind::Dir { subtree } = node.kind else {
            kept.push(node)?;
            return Ok(false);
        };
        let below = rests.below(self.alloc, self.patterns, &name)?;
        let left = self.leave(levels, subtree, below, walked)?;
        keep_folder(node, left.tree, kept)?;
        Ok(left.loses)
    }
}

/// Puts the node, with another tree, behind those that are kept.
fn keep_folder(node: Node, subtree: Id, kept: &mut Vec<Node>) -> Result<(), AllocError>
    ensures { OnOk result (map node_view kept.new.items ≡ map node_view kept.old.items
        ++ record (node_view node) { kind = dir subtree } ∷ []) }
{
    let folder = Node {
        name: node.name,
        kind: NodeKind::Dir { subtree },
        others: node.others,
    };
    kept.push(folder)?;
    Ok(())
}

/// What is left of a tree: itself, or where something goes the tree of these nodes. That is written and put behind
/// those that are finished.
#[tactic(auto, unfolding(keep_build::specs::Blobs::tree_blob))]
fn finish(
    alloc: Global,
    tree: Id,
    loses: bool,
    nodes: Vec<Node>,
    walked: &mut Walked,
) -> Result<Left, AllocError>
    requires { has_float (tree_data (map node_view nodes.items)) ≡ false }
    ensures loses { IfOk result (λ left. left.loses ≡ loses) }
    ensures tree { IfOk result (λ left. left.tree
        ≡ (if loses then id_of (tree_blob (map node_view nodes.items)) else tree)) }
    ensures finished { OnOk result (trees_of walked.new ≡ trees_of walked.old
        ++ (if loses then (tree_blob (map node_view nodes.items) ∷ []) else [])) }
    ensures same { OnOk result (walked.new.left ≡ walked.old.left) }
{
    if !loses {
        return Ok(Left { loses, tree });
    }
    let text = write_tree(alloc, &Tree { nodes })?;
    let tree = id_of(&text);
    walked.finished.push((BlobType::Tree, text))?;
    Ok(Left { loses, tree })
}
