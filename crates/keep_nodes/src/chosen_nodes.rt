ghost use Rattle.std.specs.Prelude.{◌≡◌, ◌||◌, ◌++◌, IfOk, map, option_map, codes};
ghost use Rattle.std.specs.List.{slice_split};
ghost use Rattle.std.specs.Str.{chars};
ghost use Rattle.keep_patterns.specs.Parsing.{pattern_view};
ghost use Rattle.keep_patterns.specs.Parsing as parsing;
ghost use Rattle.keep_patterns.specs.Without as without;
ghost use Rattle.keep_nodes.specs.Choosing as spec;
ghost use Rattle.keep_nodes.specs.Choosing.{lent_view, names_in};
ghost use Rattle.keep_nodes.specs.Entries.{entry_view};

use crate::path_node::PathNode;
use keep_patterns::{Letters, Pattern, letters_of, matches_path};
use std::alloc::{AllocError, Global};

/// The node at just this path. Two nodes of a snapshot have two paths.
pub fn node_at<'a>(entries: &'a [PathNode], path: &str) -> Option<&'a PathNode>
    ensures { option_map lent_view result ≡ spec.node_at path.now (map entry_view entries.entry.now) }
{
    for entry in entries {
        if entry.path.as_str() == path {
            return Some(entry);
        }
    }
    None
}

/// The nodes at this path and below it, in their order. One `/` at the end of the path is read past, and the root is
/// `/` or the empty text: it has no node of its own, and all are below it.
pub fn nodes_below<'a>(
    alloc: Global,
    entries: &'a [PathNode],
    path: &str,
) -> Result<Vec<&'a PathNode>, AllocError>
    ensures { IfOk result (λ found. map lent_view found.items
        ≡ spec.nodes_below path.now (map entry_view entries.entry.now)) }
{
    let top = before_slash(path);
    let folder = format!(in alloc; "{top}/")?;
    let mut found = Vec::new(alloc);
    for entry in entries {
        let below = is_below(top, folder.as_str(), entry.path.as_str());
        if below {
            found.push(entry)?;
        }
    }
    Ok(found)
}

/// The nodes whose path one of the patterns matches, in their order. A folder that is matched brings nothing below it
/// along, unless that is matched too.
pub fn matched<'a>(
    alloc: Global,
    entries: &'a [PathNode],
    patterns: &[Pattern],
) -> Result<Vec<&'a PathNode>, AllocError>
    ensures { IfOk result (λ found. map lent_view found.items
        ≡ spec.matched (map pattern_view patterns.now) (map entry_view entries.entry.now)) }
{
    let mut found = Vec::new(alloc);
    for entry in entries {
        let names = names_of(alloc, entry.path.as_str())?;
        let is_found = is_matched(patterns, &names);
        if is_found {
            found.push(entry)?;
        }
    }
    Ok(found)
}

/// Whether the path is this one, or begins with this folder.
fn is_below(top: &str, folder: &str, path: &str) -> bool
    requires { folder.now ≡ top.now ++ codes "/" }
    ensures { result ≡ spec.is_below top.now path.now }
{
    path == top || path.as_bytes().starts_with(folder.as_bytes())
}

/// Without the `/` that it ends with.
fn before_slash<'a>(text: &'a str) -> &'a str
    ensures { result.now ≡ parsing.before_slash text.now }
{
    match text.strip_suffix('/') {
        Some(rest) => rest,
        None => text,
    }
}

/// Without the `/` that it begins with.
fn after_slash<'a>(text: &'a str) -> &'a str
    ensures { result.now ≡ parsing.after_slash text.now }
{
    match text.strip_prefix('/') {
        Some(rest) => rest,
        None => text,
    }
}

/// The characters of the names of a path.
fn names_of(alloc: Global, path: &str) -> Result<Vec<Letters>, AllocError>
    ensures { IfOk result (λ names. names.items ≡ map chars (names_in path.now)) }
{
    let parts = parts_of(alloc, path)?;
    let mut names = Vec::with_capacity(alloc, parts.len())?;
    for part in &parts {
        let letters = letters_of(alloc, part)?;
        names.push(letters)?;
    }
    Ok(names)
}

/// The names of a path.
fn parts_of<'a>(alloc: Global, path: &'a str) -> Result<Vec<&'a str>, AllocError>
    ensures { IfOk result (λ parts. map (λ part. part.now) parts.items ≡ names_in path.entry.now) }
{
    let parts: Vec<&str> = after_slash(path).split('/').collect(alloc)?;
    Ok(parts)
}

/// Whether one of the patterns matches a path.
fn is_matched(patterns: &[Pattern], path: &[Letters]) -> bool
    ensures { result ≡ without.is_matched (map pattern_view patterns.now) path.now }
{
    for pattern in patterns {
        let matched = matches_path(pattern, path);
        if matched {
            return true;
        }
    }
    false
}
