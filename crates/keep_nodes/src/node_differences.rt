ghost use Rattle.std.specs.Prelude.{◌≡◌, ◌++◌, IfOk, OnOk, map, option_map, option_to_list};
ghost use Rattle.std.specs.FinMap as finite;
ghost use Rattle.std.specs.List.{filter_map};
ghost use Rattle.keep_tree.specs.Tree.{node_view};
ghost use Rattle.keep_nodes.specs.Choosing.{lent_view};
ghost use Rattle.keep_nodes.specs.Entries.{entry_view};
ghost use Rattle.keep_nodes.specs.Differences as spec;
ghost use Rattle.keep_nodes.specs.Differences.{difference_at, node_text};
ghost use Rattle.keep_nodes.specs.Lent.{difference_view, paths_of};

use crate::PathNode;
use crate::by_path::{ByPath, by_path, node_at, put_all};
use crate::difference::Difference;
use keep_patterns::without;
use keep_tree::{Tree, write_tree};
use std::alloc::{AllocError, Global};
use std::slice;

/// How the second nodes differ from the first, at each path that the one or the other has, in the byte order of paths.
/// Two nodes at one path differ where a tree writes them otherwise.
pub fn differences<'a>(
    alloc: Global,
    old: &'a [PathNode],
    new: &'a [PathNode],
) -> Result<Vec<Difference<'a>>, AllocError>
    ensures { IfOk result (λ found. map difference_view found.items
        ≡ spec.differences (map entry_view old.entry.now) (map entry_view new.entry.now)) }
{
    let old_nodes = by_path(alloc, old)?;
    let new_nodes = by_path(alloc, new)?;
    let mut all = by_path(alloc, old)?;
    put_all(&mut all, new)?;
    found_at(alloc, &old_nodes, &new_nodes, &all)
}

/// The differences at the paths of these nodes.
fn found_at<'a>(
    alloc: Global,
    old: &ByPath<'a>,
    new: &ByPath<'a>,
    all: &ByPath<'a>,
) -> Result<Vec<Difference<'a>>, AllocError>
    ensures { IfOk result (λ found. map difference_view found.items
        ≡ filter_map (difference_at (paths_of old.now) (paths_of new.now)) (finite.keys (paths_of all.now))) }
{
    let mut found = Vec::new(alloc);
    for (path, _entry) in all {
        add_difference(alloc, old, new, path.as_str(), &mut found)?;
    }
    Ok(found)
}

/// Adds the difference at this path, if there is one.
fn add_difference<'a>(
    alloc: Global,
    old: &ByPath<'a>,
    new: &ByPath<'a>,
    path: &str,
    found: &mut Vec<Difference<'a>>,
) -> Result<(), AllocError>
    ensures { OnOk result (map difference_view found.new.items ≡ map difference_view found.old.items
        ++ option_to_list (difference_at (paths_of old.now) (paths_of new.now) path.now)) }
{
    let difference = difference(alloc, node_at(old, path), node_at(new, path))?;
    if let Some(difference) = difference {
        found.push(difference)?;
    }
    Ok(())
}

/// How what stood at a path differs from what stands there.
fn difference<'a>(
    alloc: Global,
    old: Option<&'a PathNode>,
    new: Option<&'a PathNode>,
) -> Result<Option<Difference<'a>>, AllocError>
    ensures { IfOk result (λ found. option_map difference_view found
        ≡ spec.difference (option_map lent_view old.entry) (option_map lent_view new.entry)) }
{
    let Some(old) = old else {
        return match new {
            Some(new) => Ok(Some(Difference::Added(new))),
            None => Ok(None),
        };
    };
    let Some(new) = new else {
        return Ok(Some(Difference::Removed(old)));
    };
    let same = is_same(alloc, old, new)?;
    if same {
        return Ok(None);
    }
    Ok(Some(Difference::Changed { old, new }))
}

/// Whether a tree writes the two nodes alike.
fn is_same(alloc: Global, old: &PathNode, new: &PathNode) -> Result<bool, AllocError>
    ensures { IfOk result (λ same. same ≡ spec.is_same (node_view old.now.node) (node_view new.now.node)) }
{
    let old = text_of(alloc, old)?;
    let new = text_of(alloc, new)?;
    Ok(old.as_slice() == new.as_slice())
}

/// The node as a tree of it alone is written.
fn text_of(alloc: Global, entry: &PathNode) -> Result<Vec<u8>, AllocError>
    ensures { IfOk result (λ text. text.items ≡ node_text (node_view entry.now.node)) }
{
    let nodes = without(alloc, slice::from_ref(&entry.node), &[], &[])?;
    write_tree(alloc, &Tree { nodes })
}
