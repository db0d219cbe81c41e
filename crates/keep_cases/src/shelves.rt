//! Answers a table of scripts over shelves: given what stands on a shelf at the beginning and which of its calls fail,
//! it tells of each line of the script the answer, and the calls that it made.

mod act;
mod call;
mod case_failures;
mod damages;
mod kit;
mod logged;
mod recording;
mod running;
mod shelf_case;
mod shelf_copy;
mod shelf_stop;
mod shown_calls;
mod stops;

use crate::shelves::case_failures::Plan;
use crate::shelves::shelf_case::{Case, Failing};
use crate::shelves::shelf_stop::Stop;
use anyhow::anyhow;
use keep_names::decode_hex;
use keep_paths::key_of_path;
use keep_repo::Bytes;
use keep_rope::Rope;
use keep_shelf::Shelf;

/// Answers the rows of the table.
pub(crate) fn answer(rt: &HostRuntime, rows: &[String]) -> anyhow::Result<()> {
    let alloc = rt.alloc();
    let mut out = String::new(alloc);
    let mut case = Case::new(alloc);
    for row in rows {
        if let Err(stop) = read_row(&mut case, row.as_str(), &mut out) {
            return Err(anyhow!("{stop}: {row}"));
        }
    }
    running::answer(&case, &mut out)?;
    print!(rt; "{out}")?;
    Ok(())
}

/// Takes a row of the table. One that begins a case first has the case before it answered.
fn read_row(case: &mut Case, row: &str, out: &mut String) -> Result<(), Stop> {
    if row.is_empty() || row.starts_with('#') {
        return Ok(());
    }
    let alloc = case.alloc;
    let (verb, rest) = row.split_once(' ').unwrap_or((row, ""));
    match verb {
        "=" => {
            running::answer(case, out)?;
            *case = Case::new(alloc);
            case.name = String::from_str(alloc, rest)?;
        }
        "put" => put(case, rest)?,
        "text" => put_text(case, rest)?,
        "cut" | "copy" | "swap" | "gone" => case.damages.push(String::from_str(alloc, row)?)?,
        "stops" => case.stop(),
        "once" => case.fail(Failing::Chosen(Plan::Once(number(rest)?))),
        "onward" => case.fail(Failing::Chosen(Plan::Onward(number(rest)?))),
        "each" => case.fail(Failing::Each),
        "open" => case.opened = true,
        "run" => {
            case.opened = true;
            case.is_script = true;
        }
        "|" if case.opened => case.add_line(rest)?,
        _ => return Err(Stop::NoRow),
    }
    Ok(())
}

fn number(word: &str) -> Result<u64, Stop> {
    word.parse().ok().ok_or(Stop::NoRow)
}

/// Puts bytes on the shelf.
fn put(case: &mut Case, rest: &str) -> Result<(), Stop> {
    let (path, digits) = rest.split_once(' ').ok_or(Stop::NoRow)?;
    let bytes = decode_hex(case.alloc, digits)?.ok_or(Stop::NoRow)?;
    write(case, path, bytes)
}

/// Puts the bytes of a text on the shelf.
fn put_text(case: &mut Case, rest: &str) -> Result<(), Stop> {
    let (path, text) = rest.split_once(' ').ok_or(Stop::NoRow)?;
    let text = String::from_str(case.alloc, text)?;
    write(case, path, text.into_bytes())
}

fn write(case: &mut Case, path: &str, bytes: Vec<u8>) -> Result<(), Stop> {
    let key = key_of_path(path).ok_or(Stop::NoRow)?;
    let bytes = Bytes::new(case.alloc, bytes)?;
    case.shelf.write(key, &Rope::of(bytes))?;
    Ok(())
}
