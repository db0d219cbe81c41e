use crate::case_words::number_in;
use crate::no_case::No;
use keep_names::{Id, decode_hex, parse_id};
use std::alloc::{AllocError, Global};
use std::str;

/// The word that a line begins with, and what stands behind it.
pub(crate) fn cut<'a>(text: &'a str) -> (&'a str, &'a str) {
    match text.split_once(' ') {
        Some(parts) => parts,
        None => (text, ""),
    }
}

pub(crate) fn signed(word: &str) -> Result<i64, No> {
    match word.parse::<i64>() {
        Ok(number) => Ok(number),
        Err(_) => Err(No::Case),
    }
}

/// A number, or `-` for none.
pub(crate) fn some_number(word: &str) -> Result<Option<u64>, No> {
    if word == "-" {
        return Ok(None);
    }
    Ok(Some(number_in(word)?))
}

pub(crate) fn id(word: &str) -> Result<Id, No> {
    match parse_id(word) {
        Ok(id) => Ok(id),
        Err(_) => Err(No::Case),
    }
}

/// The text that is written in hex.
pub(crate) fn text_in(alloc: Global, digits: &str) -> Result<String, No> {
    let Some(bytes) = decode_hex(alloc, digits)? else {
        return Err(No::Case);
    };
    match str::from_utf8(&bytes) {
        Ok(text) => Ok(String::from_str(alloc, text)?),
        Err(_) => Err(No::Case),
    }
}

/// The parts of a text between bars.
pub(crate) fn cells(alloc: Global, text: &str) -> Result<Vec<String>, AllocError> {
    let mut cells = Vec::new(alloc);
    for cell in text.split('|') {
        cells.push(String::from_str(alloc, cell)?)?;
    }
    Ok(cells)
}
