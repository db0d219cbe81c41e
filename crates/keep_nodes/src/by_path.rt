ghost use Rattle.std.specs.Prelude.{◌≡◌, IfOk, OnOk, map, option_map};
ghost use Rattle.std.specs.FinMap as finite;
ghost use Rattle.keep_nodes.specs.Choosing.{lent_view};
ghost use Rattle.keep_nodes.specs.Entries.{entry_view};
ghost use Rattle.keep_nodes.specs.Differences as spec;
ghost use Rattle.keep_nodes.specs.Lent.{paths_of};

use crate::PathNode;
use std::alloc::{AllocError, Global};
use std::collections::BTreeMap;

/// Nodes by path.
pub(crate) type ByPath<'a> = BTreeMap<String, &'a PathNode>;

/// The nodes by path; of two at one path the later.
pub(crate) fn by_path<'a>(alloc: Global, entries: &'a [PathNode]) -> Result<ByPath<'a>, AllocError>
    ensures { IfOk result (λ nodes. paths_of nodes ≡ spec.by_path (map entry_view entries.entry.now)) }
{
    let mut nodes = BTreeMap::new(alloc);
    put_all(&mut nodes, entries)?;
    Ok(nodes)
}

/// Puts these nodes there, one after the other.
pub(crate) fn put_all<'a>(nodes: &mut ByPath<'a>, entries: &'a [PathNode]) -> Result<(), AllocError>
    ensures { OnOk result (paths_of nodes.new
        ≡ spec.put_all (paths_of nodes.old) (map entry_view entries.entry.now)) }
{
    for entry in entries {
        put(nodes, entry)?;
    }
    Ok(())
}

/// Puts the node there.
fn put<'a>(nodes: &mut ByPath<'a>, entry: &'a PathNode) -> Result<(), AllocError>
    ensures { OnOk result (paths_of nodes.new
        ≡ finite.insert (paths_of nodes.old) (lent_view entry.entry).path (lent_view entry.entry)) }
{
    let path = entry.path.clone()?;
    nodes.insert(path, entry)?;
    Ok(())
}

/// The node at this path.
pub(crate) fn node_at<'a>(nodes: &ByPath<'a>, path: &str) -> Option<&'a PathNode>
    ensures { option_map lent_view result ≡ finite.get (paths_of nodes.now) path.now }
{
    nodes.get(path).copied()
}
