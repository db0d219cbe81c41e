ghost use Rattle.std.specs.Prelude.{◌≡◌, ◌||◌, [], IfOk, length, map, option_map, reverse, string_bytes};
ghost use Rattle.std.specs.Str.{chars};
ghost use Rattle.keep_patterns.specs.Parsing as parsing;
ghost use Rattle.keep_patterns.specs.Parsing.{pattern_view};
ghost use Rattle.keep_patterns.specs.Without as without;
ghost use Rattle.keep_nodes.specs.Choosing.{lent_view, names_in};
ghost use Rattle.keep_nodes.specs.Entries.{entry_view};
ghost use Rattle.keep_restores.specs.Choosing as spec;
ghost use Rattle.keep_restores.specs.Choosing.{chosen_onto, included};

use keep_nodes::PathNode;
use keep_patterns::{Letters, Pattern, letters_of, matches_path};
use std::alloc::{AllocError, Global};

/// What is to be put back of the nodes of a snapshot, in their order: without patterns all of them. Else the nodes that
/// one of them matches, all that is below these, and the folders on the way to them.
pub(crate) fn chosen<'a>(
    alloc: Global,
    entries: &'a [PathNode],
    include: &[Pattern],
) -> Result<Vec<&'a PathNode>, AllocError>
    ensures { IfOk result (λ found. map lent_view found.items
        ≡ included (map pattern_view include.now) (map entry_view entries.entry.now)) }
{
    let mut found = chosen_backward(alloc, entries, include)?;
    found.reverse();
    Ok(found)
}

/// Those that are chosen, the last one first.
fn chosen_backward<'a>(
    alloc: Global,
    entries: &'a [PathNode],
    include: &[Pattern],
) -> Result<Vec<&'a PathNode>, AllocError>
    ensures { IfOk result (λ found. map lent_view (reverse found.items)
        ≡ chosen_onto (map pattern_view include.now) (map entry_view entries.entry.now) []) }
{
    let mut found = Vec::new(alloc);
    let mut next = None;
    let mut rest = entries;
    while let Some((entry, front)) = rest.split_last() {
        let is_chosen = is_asked_for(alloc, include, entry, next)?;
        if is_chosen {
            found.push(entry)?;
            next = Some(entry);
        }
        rest = front;
    }
    Ok(found)
}

/// Whether a node is chosen, before the next one that is.
fn is_asked_for(
    alloc: Global,
    include: &[Pattern],
    entry: &PathNode,
    next: Option<&PathNode>,
) -> Result<bool, AllocError>
    ensures { IfOk result (λ asked. asked ≡ (spec.is_within (map pattern_view include.now) (map chars (names_in (string_bytes entry.now.path)))
        || spec.leads_to (string_bytes entry.now.path) (option_map lent_view next.entry))) }
{
    let names = names_of(alloc, entry.path.as_str())?;
    if is_within(include, &names) {
        return Ok(true);
    }
    leads_to(alloc, entry.path.as_str(), next)
}

/// Whether a node of these names is asked for.
fn is_within(patterns: &[Pattern], names: &[Letters]) -> bool
    ensures { result ≡ spec.is_within (map pattern_view patterns.now) names.now }
{
    patterns.is_empty() || matches_first(patterns, names)
}

/// Whether one of the patterns matches these names, or first ones of them.
fn matches_first(patterns: &[Pattern], names: &[Letters]) -> bool
    ensures { result ≡ spec.matches_first (map pattern_view patterns.now) names.now (length names.now) }
{
    let mut count = names.len();
    while count > 0 {
        if is_matched(patterns, &names[..count]) {
            return true;
        }
        count -= 1;
    }
    false
}

/// Whether a folder of this path is on the way to this node.
fn leads_to(alloc: Global, path: &str, next: Option<&PathNode>) -> Result<bool, AllocError>
    ensures { IfOk result (λ leads. leads ≡ spec.leads_to path.now (option_map lent_view next.entry)) }
{
    let Some(next) = next else {
        return Ok(false);
    };
    let folder = format!(in alloc; "{path}/")?;
    Ok(next.path.as_bytes().starts_with(folder.as_bytes()))
}

/// Whether one of the patterns matches a path.
fn is_matched(patterns: &[Pattern], names: &[Letters]) -> bool
    ensures { result ≡ without.is_matched (map pattern_view patterns.now) names.now }
{
    for pattern in patterns {
        let matched = matches_path(pattern, names);
        if matched {
            return true;
        }
    }
    false
}

/// The characters of the names of a path.
fn names_of(alloc: Global, path: &str) -> Result<Vec<Letters>, AllocError>
    ensures { IfOk result (λ names. names.items ≡ map chars (names_in path.now)) }
{
    let parts = parts_of(alloc, path)?;
    let mut names = Vec::with_capacity(alloc, parts.len())?;
    for part in &parts {
        let letters = letters_of(alloc, part)?;
        names.push(letters)?;
    }
    Ok(names)
}

/// The names of a path.
fn parts_of<'a>(alloc: Global, path: &'a str) -> Result<Vec<&'a str>, AllocError>
    ensures { IfOk result (λ parts. map (λ part. part.now) parts.items ≡ names_in path.entry.now) }
{
    let parts: Vec<&str> = after_slash(path).split('/').collect(alloc)?;
    Ok(parts)
}

/// Without the `/` that it begins with.
fn after_slash<'a>(text: &'a str) -> &'a str
    ensures { result.now ≡ parsing.after_slash text.now }
{
    match text.strip_prefix('/') {
        Some(rest) => rest,
        None => text,
    }
}
