use crate::case_words::{cut_part, names_in, texts_in};
use crate::no_answer::No;
use keep_patterns::{Letters, Pattern, Rests, letters_of, matches_path, parse_pattern};
use keep_tree::Node;
use std::alloc::{AllocError, Global};

/// From where a pattern matches, and how many components it has.
pub(crate) fn pattern(alloc: Global, text: &str) -> Result<String, No> {
    let pattern = parse_pattern(alloc, text)?;
    let from = if pattern.anchored { "root" } else { "anywhere" };
    let count = pattern.components.len();
    Ok(format!(in alloc; "{from} {count}")?)
}

/// Whether a pattern matches a path.
pub(crate) fn matches(alloc: Global, text: &str) -> Result<String, No> {
    let (pattern, path) = cut_part(text);
    let pattern = parse_pattern(alloc, pattern)?;
    let path = letters_in(alloc, path)?;
    let matched = matches_path(&pattern, path.as_slice());
    Ok(format!(in alloc; "{matched}")?)
}

fn letters_in(alloc: Global, path: &str) -> Result<Vec<Letters>, AllocError> {
    let mut letters = Vec::new(alloc);
    for name in &names_in(alloc, path)? {
        letters.push(letters_of(alloc, name)?)?;
    }
    Ok(letters)
}

/// Whether what a path leaves open of a pattern takes a name below it.
pub(crate) fn rests(alloc: Global, text: &str) -> Result<String, No> {
    let (pattern, rest) = cut_part(text);
    let (path, name) = cut_part(rest);
    let patterns = patterns_of(alloc, pattern)?;
    let left = left_at(alloc, &patterns, path)?;
    let name = letters_of(alloc, name)?;
    let taken = left.takes(&patterns, &name);
    Ok(format!(in alloc; "{taken}")?)
}

fn patterns_of(alloc: Global, text: &str) -> Result<Vec<Pattern>, No> {
    let mut patterns = Vec::new(alloc);
    patterns.push(parse_pattern(alloc, text)?)?;
    Ok(patterns)
}

fn left_at(alloc: Global, patterns: &[Pattern], path: &str) -> Result<Rests, No> {
    let mut rests = Rests::opening(alloc, patterns)?;
    for name in &letters_in(alloc, path)? {
        rests = rests.below(alloc, patterns, name)?;
    }
    Ok(rests)
}

/// The names of the folder at a path that stay there where a pattern is to go.
pub(crate) fn without(alloc: Global, text: &str) -> Result<String, No> {
    let (pattern, rest) = cut_part(text);
    let (path, names) = cut_part(rest);
    let patterns = patterns_of(alloc, pattern)?;
    let path = texts_in(alloc, &names_in(alloc, path)?)?;
    let nodes = files_in(alloc, names)?;
    let left = keep_patterns::without(alloc, &nodes, &path, &patterns)?;
    Ok(names_of(alloc, &left)?)
}

fn files_in(alloc: Global, names: &str) -> Result<Vec<Node>, AllocError> {
    let mut nodes = Vec::new(alloc);
    for name in &names_in(alloc, names)? {
        let name = String::from_str(alloc, name)?;
        nodes.push(Node::file(alloc, name, Vec::new(alloc)))?;
    }
    Ok(nodes)
}

/// The names as a path has them.
fn names_of(alloc: Global, nodes: &[Node]) -> Result<String, AllocError> {
    let mut names = String::new(alloc);
    for node in nodes {
        names.push('/')?;
        names.push_str(node.name.as_str())?;
    }
    if names.is_empty() {
        names.push('/')?;
    }
    Ok(names)
}
