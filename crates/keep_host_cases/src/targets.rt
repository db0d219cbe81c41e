//! Answers a table of restores, one a line: puts each into a folder in memory, and says what is there then and what is
//! told. The stored answers are written by hand.

mod case_fields;
mod memory_store;
mod piece_source;
mod thing;

use crate::no_case::No;
use crate::targets::case_fields::{field, number, wanted};
use crate::targets::memory_store::MemoryStore;
use crate::targets::piece_source::Source;
use crate::targets::thing::{Kind, Thing};
use keep_noted_target::NotedTarget;
use keep_putting::{PutError, Restored, put_back};
use keep_targets::Owner;
use std::alloc::{AllocError, Global};
use std::fmt::Write;
use std::{io, str};

/// Answers the lines of the table.
pub(crate) fn answer(rt: &HostRuntime, lines: &[String]) -> io::Result<()> {
    for line in lines {
        match answer_line(rt.alloc(), line.as_str()) {
            Ok(text) => println!(rt; "{text}")?,
            Err(no) => println!(rt; "no {no}")?,
        }
    }
    Ok(())
}

/// The answer to a line: the number of the call that finds the disk full, the caller's number, whether the folder is new,
/// and the things, parted by tabs.
fn answer_line(alloc: Global, line: &str) -> Result<String, No> {
    let mut rest = line;
    let until_full = field(&mut rest, '\t').and_then(number).ok_or(No::Case)?;
    let uid = field(&mut rest, '\t').and_then(number).ok_or(No::Case)?;
    let is_new = field(&mut rest, '\t').ok_or(No::Case)? == "new";
    let mut things = Vec::new(alloc);
    for _ in 0..line.len() {
        if let Some(text) = field(&mut rest, '\t') {
            let thing = wanted(alloc, text)?;
            things.push(thing)?;
        }
    }
    let store = MemoryStore::new(alloc, u64::from(until_full));
    let mut target = NotedTarget::new(alloc, store, is_new);
    let caller = Owner { uid, gid: uid };
    match put_back(alloc, &mut target, &Source, caller, things.as_slice()) {
        Ok(restored) => outcome_text(alloc, &target.into_store(), &restored),
        Err(PutError::NotEmpty) => Ok(String::from_str(alloc, "not empty")?),
        Err(PutError::Memory) => Err(No::Memory),
    }
}

/// What is there, and then what was told.
fn outcome_text(alloc: Global, store: &MemoryStore, restored: &Restored) -> Result<String, No> {
    let mut text = String::new(alloc);
    for (path, thing) in store.things.iter() {
        write_thing(&mut text, path.as_str(), thing)?;
    }
    write_restored(&mut text, restored)?;
    Ok(text)
}

fn write_thing(text: &mut String, path: &str, thing: &Thing) -> Result<(), AllocError> {
    write!(text, "{path:?} {:o}", thing.mode)?;
    match &thing.kind {
        Kind::Folder => write!(text, " folder")?,
        Kind::File(bytes) => write!(
            text,
            " {:?}",
            str::from_utf8(bytes.as_slice()).unwrap_or("?")
        )?,
        Kind::Link(to) => write!(text, " to {to}")?,
    }
    if let Some(owner) = thing.owner {
        write!(text, " of {}", owner.uid)?;
    }
    if let Some(times) = thing.times {
        write!(text, " at {}", times.modified.seconds)?;
    }
    write!(text, "; ")
}

fn write_restored(text: &mut String, restored: &Restored) -> Result<(), AllocError> {
    let Restored {
        files,
        folders,
        links,
        bytes,
        owners,
        link_times,
        left_out,
    } = restored;
    write!(
        text,
        "{files} files {folders} folders {links} links {bytes} bytes {owners} owners {link_times} link times"
    )?;
    for left in left_out {
        write!(text, "; {} {:?}", left.path, left.why)?;
    }
    Ok(())
}
