ghost use Rattle.std.specs.Prelude.{◌≡◌, IfOk, codes, map, ok_or, option_map};
ghost use Rattle.serde_json.specs.View.{view};
ghost use Rattle.keep_docs.specs.Doc.{Answers};
ghost use Rattle.keep_docs.specs.Fields.{as_list_or_null, field};
ghost use Rattle.keep_docs.specs.declared.doc.DocError.TheVariants.{Memory};
ghost use Rattle.keep_tree.specs.Shape.{IsTree};
ghost use Rattle.keep_tree.specs.Tree.{tree_of, tree_view};
ghost use Rattle.keep_tree.specs.Tree as spec;
ghost use Rattle.keep_tree.specs.declared.tree.TreeError.TheVariants.{BadTree, Doc};

use crate::names::are_distinct;
use crate::node::{Node, nodes_in};
use keep_docs::{DocError, list_or_null_at, read_doc};
use serde_json::Value;
use std::alloc::{AllocError, Global};

/// What a folder holds, in the order of its document.
#[derive(Drop)]
pub struct Tree {
    pub nodes: Vec<Node>,
}

/// Why bytes weren't read as a tree.
#[derive(Clone, Copy, Debug, PartialEq, Eq)]
pub enum TreeError {
    /// It isn't a document.
    Doc(DocError),
    /// The document isn't of a tree's shape, a node can't have its name, or two nodes have one.
    BadTree,
}

impl From<DocError> for TreeError {
    ghost use Rattle.std.specs.Prelude.{◌≡◌};
    ghost use Rattle.keep_tree.specs.declared.tree.TreeError.TheVariants.{Doc};

    ghost from_gives = { λ refusal error. error ≡ Doc refusal };

    fn from(refusal: DocError) -> TreeError {
        TreeError::Doc(refusal)
    }
}

impl From<AllocError> for TreeError {
    ghost use Rattle.std.specs.Prelude.{◌≡◌};
    ghost use Rattle.keep_docs.specs.declared.doc.DocError.TheVariants.{Memory};
    ghost use Rattle.keep_tree.specs.declared.tree.TreeError.TheVariants.{Doc};

    ghost from_gives = { λ _ error. error ≡ Doc Memory };

    fn from(_error: AllocError) -> TreeError {
        TreeError::Doc(DocError::Memory)
    }
}

/// Reads a tree (restic's design document, "Trees and Data"). Other keys beside `nodes` are read past.
pub fn read_tree(alloc: Global, bytes: &[u8]) -> Result<Tree, TreeError>
    ensures read { Answers (Doc Memory) tree_view (tree_of bytes.now) result }
    ensures whole { IfOk result (λ tree. IsTree (tree_view tree)) }
{
    let value = read_doc(alloc, bytes)?;
    tree_in(alloc, &value)
}

/// The tree that a document holds.
fn tree_in(alloc: Global, value: &Value) -> Result<Tree, TreeError>
    ensures { Answers (Doc Memory) tree_view (ok_or (spec.tree_in (view value.now)) BadTree) result }
{
    let items = nodes_at(value).ok_or(TreeError::BadTree)?;
    let nodes = nodes_in(alloc, items)?;
    let distinct = are_distinct(alloc, &nodes)?;
    if !distinct {
        return Err(TreeError::BadTree);
    }
    Ok(Tree { nodes })
}

/// The values of a tree's nodes. Null is none, and the key has to be there.
fn nodes_at(value: &Value) -> Option<&[Value]>
    ensures { option_map (λ items. map view items.now) result
        ≡ field (codes "nodes") as_list_or_null (view value.now) }
{
    let _nodes = value.get("nodes")?;
    list_or_null_at(value, "nodes")
}
