ghost use Rattle.std.specs.Prelude.{◌≡◌, IfOk, map, string_bytes};
ghost use Rattle.std.specs.Str.{chars};
ghost use Rattle.keep_tree.specs.Tree.{kind_view, node_view};
ghost use Rattle.keep_patterns.specs.Parsing.{pattern_view};
ghost use Rattle.keep_patterns.specs.Without as spec;

use crate::letters::{Letters, letters_of};
use crate::matching::matches_path;
use crate::pattern::Pattern;
use keep_docs::members_copy;
use keep_tree::{Node, NodeKind};
use std::alloc::{AllocError, Global};

/// The nodes of the directory at a path that stay there: those that no pattern matches. They are copies, in order.
pub fn without(
    alloc: Global,
    nodes: &[Node],
    at: &[String],
    patterns: &[Pattern],
) -> Result<Vec<Node>, AllocError>
    ensures { IfOk result (λ kept. map node_view kept.items
        ≡ spec.without (map pattern_view patterns.now) (map string_bytes at.now) (map node_view nodes.now)) }
{
    let mut path = path_of(alloc, at)?;
    let mut kept = Vec::new(alloc);
    for node in nodes {
        let name = letters_of(alloc, node.name.as_str())?;
        path.push(name)?;
        let goes = is_matched(patterns, &path);
        path.pop();
        if !goes {
            let node = copy_of(node)?;
            kept.push(node)?;
        }
    }
    Ok(kept)
}

/// The characters of each name.
fn path_of(alloc: Global, names: &[String]) -> Result<Vec<Letters>, AllocError>
    ensures { IfOk result (λ path. path.items ≡ map chars (map string_bytes names.now)) }
{
    let mut path = Vec::with_capacity(alloc, names.len())?;
    for name in names {
        let letters = letters_of(alloc, name.as_str())?;
        path.push(letters)?;
    }
    Ok(path)
}

/// Whether one of the patterns matches a path of these names. It takes no memory.
pub fn is_matched(patterns: &[Pattern], path: &[Letters]) -> bool
    ensures { result ≡ spec.is_matched (map pattern_view patterns.now) path.now }
{
    patterns.iter().any(|pattern| matches_path(pattern, path))
}

/// A node like this one.
fn copy_of(node: &Node) -> Result<Node, AllocError>
    ensures { IfOk result (λ copy. node_view copy ≡ node_view node.now) }
{
    let name = node.name.clone()?;
    let kind = kind_copy(&node.kind)?;
    let others = members_copy(&node.others)?;
    Ok(Node { name, kind, others })
}

fn kind_copy(kind: &NodeKind) -> Result<NodeKind, AllocError>
    ensures { IfOk result (λ copy. kind_view copy ≡ kind_view kind.now) }
{
    match kind {
        NodeKind::Dir { subtree } => Ok(NodeKind::Dir { subtree: *subtree }),
        NodeKind::File { content } => {
            let content = content.clone()?;
            Ok(NodeKind::File { content })
        }
        NodeKind::Other { type_name } => {
            let type_name = type_name.clone()?;
            Ok(NodeKind::Other { type_name })
        }
    }
}
