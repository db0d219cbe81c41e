ghost use Rattle.std.specs.Prelude.{◌≡◌, IfOk, map};
ghost use Rattle.std.specs.List.{list_any};
ghost use Rattle.keep_tree.specs.Names as spec;
ghost use Rattle.keep_tree.specs.Tree.{names_of, node_view};

use crate::node::Node;
use std::alloc::{AllocError, Global};
use std::collections::BTreeSet;

/// Whether a node can have this name: it isn't empty, `.` or `..`, and has neither `/` nor NUL.
pub fn is_name(name: &str) -> bool
    ensures { result ≡ spec.is_name name.now }
{
    !matches!(name, "" | "." | "..") && !has_never_in_names(name)
}

/// Whether the text has NUL or `/`.
fn has_never_in_names(name: &str) -> bool
    ensures { result ≡ list_any spec.is_never_in_names name.now }
{
    name.bytes().any(is_never_in_names)
}

fn is_never_in_names(byte: u8) -> bool
    ensures { result ≡ spec.is_never_in_names byte }
{
    matches!(byte, 0 | b'/')
}

/// Whether no two nodes have one name.
pub(crate) fn are_distinct(alloc: Global, nodes: &[Node]) -> Result<bool, AllocError>
    ensures { IfOk result (λ distinct. distinct ≡ spec.are_distinct (names_of (map node_view nodes.now))) }
{
    let names: BTreeSet<&str> = nodes.iter().map(|node| node.name.as_str()).collect(alloc)?;
    Ok(names.len() == nodes.len())
}
