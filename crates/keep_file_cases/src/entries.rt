//! Answers a table of journal entries, one a line, each in a line: what was read, or the refusal.

mod facets;
mod held;
mod mixing;
mod printed_entry;

use crate::case_words::{bytes_in, cut, text_of};
use crate::entries::facets::facets;
use crate::entries::held::is_read_alike;
use crate::entries::mixing::{cuts, mixed};
use crate::entries::printed_entry::print_entry;
use crate::no_answer::No;
use keep_entries::{read_entry, write_entry};
use keep_journal::Entry;
use std::alloc::Global;
use std::str;

/// The answer to a line, which begins with this word.
pub(crate) fn answer(alloc: Global, word: &str, rest: &str) -> Result<String, No> {
    match word {
        "x" => answer_digits(alloc, rest),
        _ => {
            let (number, text) = cut(rest);
            answer_bytes(alloc, word, number, text.as_bytes())
        }
    }
}

/// A case whose bytes are written in hex.
fn answer_digits(alloc: Global, text: &str) -> Result<String, No> {
    let (word, rest) = cut(text);
    let (number, digits) = cut(rest);
    let bytes = bytes_in(alloc, digits)?;
    answer_bytes(alloc, word, number, &bytes)
}

fn answer_bytes(alloc: Global, word: &str, number: &str, bytes: &[u8]) -> Result<String, No> {
    let Ok(number) = number.parse::<u64>() else {
        return Err(No::Case);
    };
    match word {
        "entry" => said(alloc, number, bytes),
        "again" => written(alloc, number, bytes),
        "cuts" => cuts(alloc, number, bytes),
        "mixed" => mixed(alloc, number, bytes),
        "facets" => facets(alloc, number, count_in(bytes).ok_or(No::Case)?),
        _ => Err(No::Case),
    }
}

/// What an entry says, and whether it is written so.
fn said(alloc: Global, number: u64, bytes: &[u8]) -> Result<String, No> {
    let entry = read_entry(alloc, number, bytes)?;
    let mut told = print_entry(alloc, &entry)?;
    let is_same = is_same(alloc, &entry, bytes)?;
    told.push_str(if is_same { " same" } else { " anew" })?;
    if !is_read_alike(alloc, &entry, bytes, is_same)? {
        told.push_str(", and otherwise where its files are held")?;
    }
    Ok(told)
}

fn is_same(alloc: Global, entry: &Entry, bytes: &[u8]) -> Result<bool, No> {
    let text = write_entry(alloc, entry)?.bytes(alloc)?;
    Ok(text.as_slice() == bytes)
}

/// How an entry that was read is written.
fn written(alloc: Global, number: u64, bytes: &[u8]) -> Result<String, No> {
    let entry = read_entry(alloc, number, bytes)?;
    let text = write_entry(alloc, &entry)?.bytes(alloc)?;
    text_of(alloc, text.as_slice())
}

/// The number that is written in decimal.
fn count_in(digits: &[u8]) -> Option<u32> {
    str::from_utf8(digits).ok()?.parse::<u32>().ok()
}
