use crate::case_words::{ids_in, text_of, words_in};
use crate::no_answer::No;
use keep_names::parse_id;
use keep_tree::{Node, Tree, is_name, read_tree, write_tree};
use std::alloc::Global;

pub(crate) fn tree(alloc: Global, bytes: &[u8]) -> Result<String, No> {
    let tree = read_tree(alloc, bytes)?;
    let written = write_tree(alloc, &tree)?;
    text_of(alloc, &written)
}

/// The tree of nodes that are made anew.
pub(crate) fn nodes(alloc: Global, text: &str) -> Result<String, No> {
    let mut nodes = Vec::new(alloc);
    for part in text.split(" :: ") {
        nodes.push(node(alloc, part)?)?;
    }
    let written = write_tree(alloc, &Tree { nodes })?;
    text_of(alloc, &written)
}

fn node(alloc: Global, text: &str) -> Result<Node, No> {
    let words = words_in(alloc, text)?;
    let [kind, name, ids @ ..] = words.as_slice() else {
        return Err(No::Case);
    };
    let name = String::from_str(alloc, name)?;
    match (*kind, ids) {
        ("file", ids) => Ok(Node::file(alloc, name, ids_in(alloc, ids)?)),
        ("dir", [id]) => Ok(Node::dir(alloc, name, parse_id(id)?)),
        _ => Err(No::Case),
    }
}

/// Whether a node can have the name.
pub(crate) fn name(alloc: Global, text: &str) -> Result<String, No> {
    let is_good = is_name(text);
    Ok(format!(in alloc; "{is_good}")?)
}
