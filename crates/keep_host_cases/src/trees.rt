//! Answers a table of acts of a folder of keys over a tree that fails: given what stands in the tree at the beginning,
//! it tells of each act which calls it makes of the tree and what it answers, as it stands and where each of the calls
//! fails, and what is there when the tree is opened anew.

mod act;
mod act_failures;
mod logged_tree;
mod running;
mod shown_tree;
mod tree_case;
mod tree_stop;

use crate::trees::act::Act;
use crate::trees::tree_case::{Case, Entry};
use crate::trees::tree_stop::Stop;
use anyhow::anyhow;
use keep_paths::key_of_path;
use keep_repo::Bytes;
use keep_rope::Rope;
use keep_shelf::Key;
use std::alloc::{AllocError, Global};
use std::fmt::Write;

/// Answers the rows of the table.
pub(crate) fn answer(rt: &HostRuntime, rows: &[String]) -> anyhow::Result<()> {
    let alloc = rt.alloc();
    let mut out = String::new(alloc);
    let mut case = Case::new(alloc);
    for row in rows {
        if let Err(stop) = read_row(&mut case, row.as_str(), &mut out) {
            return Err(anyhow!("{stop}: {row}"));
        }
    }
    print!(rt; "{out}")?;
    Ok(())
}

/// Takes a row of the table. One that is an act has the case answered.
fn read_row(case: &mut Case, row: &str, out: &mut String) -> Result<(), Stop> {
    if row.is_empty() || row.starts_with('#') {
        return Ok(());
    }
    let alloc = case.alloc;
    let (verb, rest) = row.split_once(' ').unwrap_or((row, ""));
    match verb {
        "=" => {
            *case = Case::new(alloc);
            writeln!(out, "= {rest}")?;
            Ok(())
        }
        "folder" => {
            let path = String::from_str(alloc, rest)?;
            Ok(case.entries.push(Entry::Folder(path))?)
        }
        "file" => {
            let (path, text) = rest.split_once(' ').ok_or(Stop::NoRow)?;
            let path = String::from_str(alloc, path)?;
            let bytes = bytes_of(alloc, text)?;
            Ok(case.entries.push(Entry::File(path, bytes))?)
        }
        _ => running::answer(case, &act_of(alloc, verb, rest)?, out),
    }
}

/// The act that the row names.
fn act_of(alloc: Global, verb: &str, rest: &str) -> Result<Act, Stop> {
    match verb {
        "put" => {
            let (path, text) = rest.split_once(' ').ok_or(Stop::NoRow)?;
            Ok(Act::Put(key_at(path)?, bytes_of(alloc, text)?))
        }
        "shift" => {
            let (from, to) = rest.split_once(' ').ok_or(Stop::NoRow)?;
            Ok(Act::Shift(key_at(from)?, key_at(to)?))
        }
        "remove" => Ok(Act::Remove(key_at(rest)?)),
        "clear" => Ok(Act::Clear),
        "walk" => Ok(Act::Walk),
        _ => Err(Stop::NoRow),
    }
}

fn key_at(path: &str) -> Result<Key, Stop> {
    key_of_path(path).ok_or(Stop::NoRow)
}

/// The bytes of a text.
fn bytes_of(alloc: Global, text: &str) -> Result<Rope, AllocError> {
    let text = String::from_str(alloc, text)?;
    Ok(Rope::of(Bytes::new(alloc, text.into_bytes())?))
}
