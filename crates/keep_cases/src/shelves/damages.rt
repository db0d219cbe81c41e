use crate::shelves::shelf_case::Case;
use crate::shelves::shelf_stop::Stop;
use crate::shelves::stops::show_stop;
use keep_paths::key_of_path;
use keep_repo::Bytes;
use keep_rope::Rope;
use keep_shelf::{Key, MemoryShelf, Shelf};
use std::alloc::Global;
use std::fmt::Write;

/// Opens what stands on the shelf at the beginning, damaged in each of the ways that the case has, as a book of its
/// own, and writes what the book has.
pub(crate) fn show_damages(case: &Case, out: &mut String) -> Result<(), Stop> {
    for damage in &case.damages {
        let mut content = case.shelf.copy()?;
        harm(case.alloc, damage.as_str(), &mut content)?;
        write!(out, "{damage}: ")?;
        show_stop(case.alloc, content, out)?;
    }
    Ok(())
}

/// Does to the content what the row says.
fn harm(alloc: Global, damage: &str, content: &mut MemoryShelf) -> Result<(), Stop> {
    let (verb, rest) = damage.split_once(' ').ok_or(Stop::NoRow)?;
    let (path, rest) = rest.split_once(' ').unwrap_or((rest, ""));
    let key = key_of_path(path).ok_or(Stop::NoRow)?;
    let bytes = content.read(key)?.ok_or(Stop::NoRow)?;
    match verb {
        "gone" => content.erase(key)?,
        "cut" => content.write(key, &beginning(alloc, &bytes, rest)?)?,
        "copy" => content.write(key_of_path(rest).ok_or(Stop::NoRow)?, &bytes)?,
        "swap" => swap(content, key, rest)?,
        _ => return Err(Stop::NoRow),
    }
    Ok(())
}

/// The first bytes, as many as the word says.
fn beginning(alloc: Global, whole: &Rope, count: &str) -> Result<Rope, Stop> {
    let count: usize = count.parse().ok().ok_or(Stop::NoRow)?;
    let bytes = whole.bytes(alloc)?;
    let kept = bytes.as_slice().get(..count).ok_or(Stop::NoRow)?;
    let kept = Bytes::new(alloc, Vec::from_slice(alloc, kept)?)?;
    Ok(Rope::of(kept))
}

/// What stands under the key and what stands at the path come to stand in each other's place.
fn swap(content: &mut MemoryShelf, key: Key, path: &str) -> Result<(), Stop> {
    let other = key_of_path(path).ok_or(Stop::NoRow)?;
    let mine = content.read(key)?.ok_or(Stop::NoRow)?;
    let its = content.read(other)?.ok_or(Stop::NoRow)?;
    content.write(key, &its)?;
    content.write(other, &mine)?;
    Ok(())
}
