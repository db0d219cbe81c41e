ghost use Rattle.std.specs.Prelude.{◌≡◌, ◌++◌, [], ◌∷◌, None, map, string_bytes, codes, IfOk, OnOk};
ghost use Rattle.keep_names.specs.BlobId.{tree_at};
ghost use Rattle.keep_catalog.specs.Naming.{named_by, named_of};
ghost use Rattle.keep_reach.specs.Reach as spec;
ghost use Rattle.keep_reach.specs.Reach.{first_of, refusal_at};
ghost use Rattle.keep_reach.specs.Snapshots.{refusal_from};
ghost use Rattle.keep_tree.specs.Tree.{node_view};
ghost use Rattle.keep_read.specs.Contents.{content_view, contents_at, contents_of, under};
ghost use Rattle.keep_read.specs.Found.{AreBare, AreFound, IsFound};

use crate::content::Content;
use crate::joined_pieces::{joined, nodes_in};
use keep_catalog::Catalog;
use keep_names::Id;
use keep_reach::{Reached, levels};
use keep_tree::{Node, NodeKind};
use std::alloc::{AllocError, Global};
use std::collections::BTreeSet;

/// What a walk has come by: what stands at the paths, and trees below which nothing stands.
#[derive(Drop)]
struct Walked {
    contents: Vec<Content>,
    bare: BTreeSet<Id>,
}

/// A walk over the trees of a catalog, whose blobs were found where they were reached.
#[derive(Clone, Copy)]
struct Walk<'a> {
    alloc: Global,
    catalog: &'a Catalog<'a>,
    reached: &'a Reached,
}

/// What stands below the tree, which isn't refused.
pub(crate) fn contents_of(
    alloc: Global,
    catalog: &Catalog,
    reached: &Reached,
    tree: Id,
) -> Result<Vec<Content>, AllocError>
    requires found { IsFound catalog.now reached.now spec.most_levels (tree_at tree) }
    requires had { refusal_from catalog.now (tree_at tree) ≡ None }
    ensures { IfOk result (λ contents.
        map content_view contents.items ≡ contents_at catalog.now spec.most_levels tree) }
{
    let walk = Walk {
        alloc,
        catalog,
        reached,
    };
    let mut walked = Walked {
        contents: Vec::new(alloc),
        bare: BTreeSet::new(alloc),
    };
    walk.add_tree(levels(), "", tree, &mut walked)?;
    let Walked { contents, bare: _ } = walked;
    Ok(contents)
}

impl Walk<'_> {
    /// Adds what stands below the tree at this path. A tree below which nothing stands is walked once.
    #[cycle(walking)]
    fn add_tree(
        &self,
        levels: u16,
        path: &str,
        tree: Id,
        walked: &mut Walked,
    ) -> Result<(), AllocError>
        requires found { IsFound self.now.catalog.now self.now.reached.now levels (tree_at tree) }
        requires had { refusal_at (named_by self.now.catalog.now) levels (tree_at tree) ≡ None }
        requires before { AreBare self.now.catalog.now walked.old.bare }
        ensures contents { OnOk result (map content_view walked.new.contents.items
            ≡ map content_view walked.old.contents.items
            ++ map (under path.now) (contents_at self.now.catalog.now levels tree)) }
        ensures bare { OnOk result (AreBare self.now.catalog.now walked.new.bare) }
    {
        if walked.bare.contains(&tree) {
            return Ok(());
        }
        let nodes = nodes_in(self.alloc, self.catalog, self.reached, tree)?;
        let before = walked.contents.len();
        for node in &nodes {
            self.add_node(levels - 1, path, node, walked)?;
        }
        if walked.contents.len() == before {
            walked.bare.insert(tree)?;
        }
        Ok(())
    }

    /// Adds what the node is, at its name below the path, and what stands below it.
    #[cycle(walking)]
    fn add_node(
        &self,
        levels: u16,
        path: &str,
        node: &Node,
        walked: &mut Walked,
    ) -> Result<(), AllocError>
        requires found { AreFound self.now.catalog.now self.now.reached.now levels
            (named_of (node_view node.now)) }
        requires had { first_of (refusal_at (named_by self.now.catalog.now) levels)
            (named_of (node_view node.now)) ≡ None }
        requires before { AreBare self.now.catalog.now walked.old.bare }
        ensures contents { OnOk result (map content_view walked.new.contents.items
            ≡ map content_view walked.old.contents.items
            ++ map (under path.now)
            (contents_of self.now.catalog.now (contents_at self.now.catalog.now levels) (node_view node.now))) }
        ensures bare { OnOk result (AreBare self.now.catalog.now walked.new.bare) }
    {
        let path = path_below(self.alloc, path, node.name.as_str())?;
        match &node.kind {
            NodeKind::Dir { subtree } => self.add_tree(levels, path.as_str(), *subtree, walked),
            NodeKind::File { content } => {
                let bytes = joined(self.alloc, self.catalog, self.reached, content)?;
                add(&mut walked.contents, path, Some(bytes))
            }
            NodeKind::Other { type_name: _ } => add(&mut walked.contents, path, None),
        }
    }
}

/// The path of what has this name in the folder of this path.
fn path_below(alloc: Global, path: &str, name: &str) -> Result<String, AllocError>
    ensures { IfOk result (λ below. string_bytes below ≡ path.now ++ (codes "/" ++ name.now)) }
{
    format!(in alloc; "{path}/{name}")
}

/// Adds what stands at a path.
fn add(contents: &mut Vec<Content>, path: String, bytes: Option<Vec<u8>>) -> Result<(), AllocError>
    ensures { OnOk result (map content_view contents.new.items
        ≡ map content_view contents.old.items ++ content_view (record { path = path; bytes = bytes }) ∷ []) }
{
    contents.push(Content { path, bytes })?;
    Ok(())
}
