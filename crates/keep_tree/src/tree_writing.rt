ghost use Rattle.std.specs.Prelude.{◌≡◌, ℕ, IfOk, List, Ok, OnOk, false, map};
ghost use Rattle.serde_json.specs.View.{members_view, view};
ghost use Rattle.serde_json.specs.Written.{compact_text, has_float};
ghost use Rattle.keep_docs.specs.Lists.{list_data};
ghost use Rattle.keep_tree.specs.Shape.{IsTree};
ghost use Rattle.keep_tree.specs.Tree.{NodeData, kind_view, node_view, tree_of, tree_view};
ghost use Rattle.keep_tree.specs.Written.{node_data, tree_data, type_of};
ghost use Rattle.keep_tree.specs.Written as spec;

use crate::node::{Node, NodeKind};
use crate::tree::Tree;
use keep_docs::{id_value, ids_value, members_copy, put, write_doc};
use serde_json::{Map, Value};
use std::alloc::{AllocError, Global};

/// The text of a tree: one compact document, the keys of each object in byte order, with no byte after it.
pub fn write_tree(alloc: Global, tree: &Tree) -> Result<Vec<u8>, AllocError>
    ensures text { IfOk result (λ bytes. has_float (tree_data (tree_view tree.now)) ≡ false
        → bytes.items ≡ compact_text (tree_data (tree_view tree.now))) }
    ensures reads_back { IfOk result (λ bytes. IsTree (tree_view tree.now)
        → tree_of bytes.items ≡ Ok (tree_view tree.now)) }
{
    let value = tree_value(alloc, tree)?;
    write_doc(alloc, &value)
}

/// Which trees read back from their text as themselves: those that a document can hold. What is read of any
/// bytes is one of these.
pub fn trees_read_back()
    ensures written { (nodes : List NodeData) → IsTree nodes
        → tree_of (compact_text (tree_data nodes)) ≡ Ok nodes }
    ensures read { (bytes : List ℕ) (nodes : List NodeData) → tree_of bytes ≡ Ok nodes → IsTree nodes }
{}

/// A tree as a document.
fn tree_value(alloc: Global, tree: &Tree) -> Result<Value, AllocError>
    ensures { IfOk result (λ value. view value ≡ tree_data (tree_view tree.now)) }
{
    let nodes = node_values(alloc, &tree.nodes)?;
    let mut members = Map::new(alloc);
    put(alloc, &mut members, "nodes", nodes)?;
    Ok(Value::Object(members))
}

/// Nodes as a list.
fn node_values(alloc: Global, nodes: &[Node]) -> Result<Value, AllocError>
    ensures { IfOk result (λ value. view value ≡ list_data (map node_data (map node_view nodes.now))) }
{
    let mut values = Vec::with_capacity(alloc, nodes.len())?;
    for node in nodes {
        let value = node_value(alloc, node)?;
        values.push(value)?;
    }
    Ok(Value::Array(values))
}

/// A node as an object.
fn node_value(alloc: Global, node: &Node) -> Result<Value, AllocError>
    ensures { IfOk result (λ value. view value ≡ node_data (node_view node.now)) }
{
    let mut members = members_copy(&node.others)?;
    put_kind(alloc, &mut members, &node.kind)?;
    let type_name = Value::try_from_str(alloc, type_name(&node.kind))?;
    put(alloc, &mut members, "type", type_name)?;
    let name = Value::try_from_str(alloc, node.name.as_str())?;
    put(alloc, &mut members, "name", name)?;
    Ok(Value::Object(members))
}

/// Writes the member that only a node of this kind has for itself.
fn put_kind(
    alloc: Global,
    members: &mut Map<String, Value>,
    kind: &NodeKind,
) -> Result<(), AllocError>
    ensures { OnOk result (members_view members.new.entries
        ≡ spec.put_kind (kind_view kind.now) (members_view members.old.entries)) }
{
    match kind {
        NodeKind::Dir { subtree } => {
            let subtree = id_value(alloc, *subtree)?;
            put(alloc, members, "subtree", subtree)
        }
        NodeKind::File { content } => {
            let content = ids_value(alloc, content)?;
            put(alloc, members, "content", content)
        }
        NodeKind::Other { type_name: _ } => Ok(()),
    }
}

/// The word for the type of a node.
fn type_name(kind: &NodeKind) -> &str
    ensures { result.now ≡ type_of (kind_view kind.now) }
{
    match kind {
        NodeKind::Dir { subtree: _ } => "dir",
        NodeKind::File { content: _ } => "file",
        NodeKind::Other { type_name } => type_name.as_str(),
    }
}
