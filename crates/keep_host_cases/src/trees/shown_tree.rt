use crate::trees::tree_stop::Stop;
use keep_files::{FileTree, Node, TreeError};
use keep_memory_files::MemoryTree;
use keep_paths::path_of_key;
use keep_repo::Bytes;
use keep_shelf::Stock;
use std::alloc::Global;
use std::fmt::Write;
use std::str;

/// How many paths a tree of a case has, at most.
const MOST_PATHS: u32 = 1_000;

pub(crate) fn word_of(error: TreeError) -> &'static str {
    match error {
        TreeError::Broken => "Broken",
        TreeError::Unknown => "Unknown",
    }
}

/// Writes what was found under keys.
pub(crate) fn show_keys(alloc: Global, found: Stock, out: &mut String) -> Result<(), Stop> {
    out.push_str("keys")?;
    for key in &found.keys()? {
        if let Some(bytes) = found.bytes(*key)? {
            let path = path_of_key(alloc, *key)?;
            show_file(path.as_str(), &bytes, out)?;
        }
    }
    Ok(())
}

/// Writes all that stands in the tree, in the order of paths.
pub(crate) fn show_tree(alloc: Global, tree: MemoryTree, out: &mut String) -> Result<(), Stop> {
    let mut tree = tree;
    for path in &paths_of(alloc, &mut tree)? {
        match tree.read(path.as_str())? {
            Some(Node::Folder) => write!(out, " {path}/")?,
            Some(Node::File(rope)) => show_file(path.as_str(), &rope.bytes(alloc)?, out)?,
            None => {}
        }
    }
    Ok(())
}

/// The paths of all that stands in the tree, in order.
fn paths_of(alloc: Global, tree: &mut MemoryTree) -> Result<Vec<String>, Stop> {
    let mut paths = Vec::new(alloc);
    let mut awaited = tree.list("")?;
    for _ in 0..MOST_PATHS {
        let Some(path) = awaited.pop() else {
            break;
        };
        let mut held = tree.list(path.as_str())?;
        awaited.append(&mut held)?;
        paths.push(path)?;
    }
    paths.sort()?;
    Ok(paths)
}

fn show_file(path: &str, bytes: &Bytes, out: &mut String) -> Result<(), Stop> {
    let Ok(text) = str::from_utf8(bytes.as_slice()) else {
        return Err(Stop::NoRow);
    };
    write!(out, " {path}={text}")?;
    Ok(())
}
