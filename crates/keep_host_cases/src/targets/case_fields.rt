//! A case as its line says it.

use crate::no_case::No;
use keep_names::Id;
use keep_putting::{Wanted, What};
use keep_quoted::unquote;
use keep_targets::{Instant, Owner, Times};
use std::alloc::{AllocError, Global};

/// The next field of a line.
pub(crate) fn field<'a>(rest: &mut &'a str, end: char) -> Option<&'a str> {
    let text = *rest;
    if text.is_empty() {
        return None;
    }
    match text.split_once(end) {
        Some((first, behind)) => {
            *rest = behind;
            Some(first)
        }
        None => {
            *rest = "";
            Some(text)
        }
    }
}

/// A thing that is wanted: its kind's letter, its path, mode, time, owner and what it holds, parted by bars.
pub(crate) fn wanted(alloc: Global, text: &str) -> Result<Wanted, No> {
    let mut rest = text;
    let kind = field(&mut rest, '|').ok_or(No::Case)?;
    let path = field(&mut rest, '|').ok_or(No::Case)?;
    let mode = field(&mut rest, '|').ok_or(No::Case)?;
    let time = field(&mut rest, '|').ok_or(No::Case)?;
    let owner = field(&mut rest, '|').ok_or(No::Case)?;
    let what = what(alloc, kind, rest)?;
    let name = name(alloc, path)?;
    Ok(Wanted {
        path: String::from_str(alloc, path)?,
        name,
        what,
        owner: number(owner).map(|uid| Owner { uid, gid: uid }),
        mode: octal(mode),
        times: number(time).map(times),
    })
}

fn what(alloc: Global, kind: &str, held: &str) -> Result<What, No> {
    match kind {
        "d" => Ok(What::Folder),
        "f" => Ok(What::File(pieces(alloc, held)?)),
        "l" => Ok(What::Link(String::from_str(alloc, held)?)),
        "o" => Ok(What::Other),
        _ => Err(No::Case),
    }
}

/// A digit is the piece of an id that begins with this number.
fn pieces(alloc: Global, digits: &str) -> Result<Vec<Id>, AllocError> {
    let mut ids = Vec::new(alloc);
    for digit in digits.as_bytes() {
        let mut id = Id([0; 32]);
        id.0[0] = digit.saturating_sub(b'0');
        ids.push(id)?;
    }
    Ok(ids)
}

/// The last name on a path, read back.
fn name(alloc: Global, path: &str) -> Result<Option<String>, AllocError> {
    let quoted = match path.rsplit_once('/') {
        Some((_, name)) => name,
        None => path,
    };
    let Some(bytes) = unquote(alloc, quoted)? else {
        return Ok(None);
    };
    Ok(String::from_utf8(bytes).ok())
}

fn times(seconds: u32) -> Times {
    let instant = Instant {
        seconds: i64::from(seconds),
        nanoseconds: 0,
    };
    Times {
        accessed: instant,
        modified: instant,
    }
}

pub(crate) fn number(text: &str) -> Option<u32> {
    text.parse::<u32>().ok()
}

fn octal(text: &str) -> Option<u32> {
    u32::from_str_radix(text, 8).ok()
}
