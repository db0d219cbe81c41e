ghost use Rattle.std.specs.Prelude.{◌≡◌, map, ok_or};
ghost use Rattle.serde_json.specs.View.{view};
ghost use Rattle.keep_docs.specs.Doc.{Answers};
ghost use Rattle.keep_docs.specs.declared.doc.DocError.TheVariants.{Memory};
ghost use Rattle.keep_docs.specs.Lists.{each};
ghost use Rattle.keep_tree.specs.Tree.{kind_view, node_view};
ghost use Rattle.keep_tree.specs.Tree as spec;
ghost use Rattle.keep_tree.specs.declared.tree.TreeError.TheVariants.{BadTree, Doc};

use crate::names::is_name;
use crate::tree::TreeError;
use keep_docs::{id_at, ids, list_or_null_at, others, str_at};
use keep_names::Id;
use serde_json::{Map, Value};
use std::alloc::{AllocError, Global};

/// What a node is.
#[derive(Drop)]
pub enum NodeKind {
    /// A folder, with the id of its tree.
    Dir { subtree: Id },
    /// A file, with the ids of its pieces in order.
    File { content: Vec<Id> },
    /// A node of any other type, as `symlink`, `fifo` or `dev`.
    Other { type_name: String },
}

/// A node of a tree. What it says beside its name and what it is, as mode, owner, times, inode and link target,
/// is carried in `others`, by the keys of its document.
#[derive(Drop)]
pub struct Node {
    pub name: String,
    pub kind: NodeKind,
    pub others: Map<String, Value>,
}

impl Node {
    ghost use Rattle.std.specs.Prelude.{◌≡◌, string_bytes};
    ghost use Rattle.serde_json.specs.Data.{no_members};
    ghost use Rattle.keep_tree.specs.Tree.{node_view};
    ghost use Rattle.keep_tree.specs.Tree as spec;

    /// A folder of which nothing else is known.
    pub fn dir(alloc: Global, name: String, subtree: Id) -> Node
        ensures { node_view result
            ≡ record { name = string_bytes name; kind = spec.dir subtree; others = no_members } }
    {
        Node {
            name,
            kind: NodeKind::Dir { subtree },
            others: Map::new(alloc),
        }
    }

    /// A file of which nothing else is known.
    pub fn file(alloc: Global, name: String, content: Vec<Id>) -> Node
        ensures { node_view result
            ≡ record { name = string_bytes name; kind = spec.file content.items; others = no_members } }
    {
        Node {
            name,
            kind: NodeKind::File { content },
            others: Map::new(alloc),
        }
    }
}

/// The nodes that a list of values holds.
pub(crate) fn nodes_in(alloc: Global, items: &[Value]) -> Result<Vec<Node>, TreeError>
    ensures { Answers (Doc Memory) (λ nodes. map node_view nodes.items)
        (ok_or (each spec.node_in (map view items.now)) BadTree) result }
{
    let mut nodes = Vec::new(alloc);
    for item in items {
        let node = node_in(alloc, item)?;
        nodes.push(node).map_err(AllocError::from)?;
    }
    Ok(nodes)
}

/// The node that a value holds.
fn node_in(alloc: Global, value: &Value) -> Result<Node, TreeError>
    ensures { Answers (Doc Memory) node_view (ok_or (spec.node_in (view value.now)) BadTree) result }
{
    let name = str_at(value, "name").ok_or(TreeError::BadTree)?;
    let type_name = str_at(value, "type").ok_or(TreeError::BadTree)?;
    let kind = kind_in(alloc, type_name, value)?;
    if !is_name(name) {
        return Err(TreeError::BadTree);
    }
    let others = others(alloc, value, own_keys(&kind))?;
    let name = String::from_str(alloc, name)?;
    Ok(Node { name, kind, others })
}

/// What a node of this type is.
fn kind_in(alloc: Global, type_name: &str, value: &Value) -> Result<NodeKind, TreeError>
    ensures { Answers (Doc Memory) kind_view
        (ok_or (spec.kind_in type_name.now (view value.now)) BadTree) result }
{
    if type_name == "dir" {
        let subtree = id_at(value, "subtree").ok_or(TreeError::BadTree)?;
        return Ok(NodeKind::Dir { subtree });
    }
    if type_name == "file" {
        let items = list_or_null_at(value, "content").ok_or(TreeError::BadTree)?;
        let content = ids(alloc, items)?.ok_or(TreeError::BadTree)?;
        return Ok(NodeKind::File { content });
    }
    let type_name = String::from_str(alloc, type_name)?;
    Ok(NodeKind::Other { type_name })
}

/// The keys whose members a node of this kind has for itself.
fn own_keys(kind: &NodeKind) -> &'static [&'static str]
    ensures { map (λ key. key.now) result.now ≡ spec.own_keys (kind_view kind.now) }
{
    match kind {
        NodeKind::Dir { subtree: _ } => &["name", "type", "subtree"],
        NodeKind::File { content: _ } => &["name", "type", "content"],
        NodeKind::Other { type_name: _ } => &["name", "type"],
    }
}
