ghost use Rattle.std.specs.Prelude.{◌≡◌, ◌≢◌, ◌++◌, [], ◌∷◌, false, None, Some, map, string_bytes, codes, IfErr, IfOk, OnOk};
ghost use Rattle.serde_json.specs.Written.{has_float};
ghost use Rattle.keep_docs.specs.Doc.{Answers};
ghost use Rattle.keep_names.specs.BlobId.{tree_at};
ghost use Rattle.keep_tree.specs.Tree.{node_view};
ghost use Rattle.keep_tree.specs.Written.{tree_data};
ghost use Rattle.keep_catalog.specs.declared.reach_error.ReachError.TheVariants as the_error;
ghost use Rattle.keep_reach.specs.Reach.{first_of, refusal_at};
ghost use Rattle.keep_nodes.specs.Entries.{at, entry_view, entries_at, entries_of, under};
ghost use Rattle.keep_nodes.specs.Listed.{listed_from, tree_of, tree_refusal, trees_by};

use crate::path_node::PathNode;
use keep_catalog::{Catalog, ReachError};
use keep_names::Id;
use keep_reach::levels;
use keep_tree::{Node, NodeKind};
use std::alloc::{AllocError, Global};

/// A walk over the trees of a catalog.
#[derive(Clone, Copy)]
struct Walk<'a> {
    alloc: Global,
    catalog: &'a Catalog<'a>,
}

/// What is below the tree, or its first refusal. Each tree is read as often as it is come to.
pub(crate) fn entries_below(
    alloc: Global,
    catalog: &Catalog,
    tree: Id,
) -> Result<Vec<PathNode>, ReachError>
    ensures { Answers the_error.Memory (λ entries. map entry_view entries.items)
        (listed_from catalog.now tree (tree_refusal catalog.now tree)) result }
{
    let walk = Walk { alloc, catalog };
    let mut entries = Vec::new(alloc);
    walk.add_tree(levels(), "", tree, &mut entries)?;
    Ok(entries)
}

impl Walk<'_> {
    /// Adds what is below the tree at this path, where trees may stand at so many levels.
    #[cycle(walking)]
    fn add_tree(
        &self,
        levels: u16,
        path: &str,
        tree: Id,
        entries: &mut Vec<PathNode>,
    ) -> Result<(), ReachError>
        ensures added { OnOk result (map entry_view entries.new.items
            ≡ map entry_view entries.old.items
            ++ map (under path.now) (entries_at self.now.catalog.now levels tree)) }
        ensures had { OnOk result (refusal_at (trees_by self.now.catalog.now) levels (tree_at tree) ≡ None) }
        ensures refused { IfErr result (λ error. error ≢ the_error.Memory
            → refusal_at (trees_by self.now.catalog.now) levels (tree_at tree) ≡ Some error) }
    {
        if levels == 0 {
            return Err(ReachError::TooDeep);
        }
        let nodes = self.catalog.nodes(self.alloc, tree)?;
        for node in nodes {
            self.add_node(levels - 1, path, node, entries)?;
        }
        Ok(())
    }

    /// Adds the node, at its name below the path, and what is below it.
    #[cycle(walking)]
    fn add_node(
        &self,
        levels: u16,
        path: &str,
        node: Node,
        entries: &mut Vec<PathNode>,
    ) -> Result<(), ReachError>
        requires { has_float (tree_data (node_view node ∷ [])) ≡ false }
        ensures added { OnOk result (map entry_view entries.new.items
            ≡ map entry_view entries.old.items
            ++ map (under path.now) (entries_of (entries_at self.now.catalog.now levels) (node_view node))) }
        ensures had { OnOk result (first_of (refusal_at (trees_by self.now.catalog.now) levels)
            (tree_of (node_view node)) ≡ None) }
        ensures refused { IfErr result (λ error. error ≢ the_error.Memory
            → first_of (refusal_at (trees_by self.now.catalog.now) levels)
            (tree_of (node_view node)) ≡ Some error) }
    {
        let path = path_below(self.alloc, path, node.name.as_str())?;
        if let NodeKind::Dir { subtree } = &node.kind {
            let subtree = *subtree;
            let below = path.clone()?;
            add(entries, path, node)?;
            return self.add_tree(levels, below.as_str(), subtree, entries);
        }
        add(entries, path, node)?;
        Ok(())
    }
}

/// The path of what has this name in the folder of this path.
fn path_below(alloc: Global, path: &str, name: &str) -> Result<String, AllocError>
    ensures { IfOk result (λ below. string_bytes below ≡ path.now ++ (codes "/" ++ name.now)) }
{
    format!(in alloc; "{path}/{name}")
}

/// Adds a node at its path.
fn add(entries: &mut Vec<PathNode>, path: String, node: Node) -> Result<(), AllocError>
    requires { has_float (tree_data (node_view node ∷ [])) ≡ false }
    ensures { OnOk result (map entry_view entries.new.items
        ≡ map entry_view entries.old.items ++ at (string_bytes path) (node_view node) ∷ []) }
{
    entries.push(PathNode { path, node })?;
    Ok(())
}
