use crate::no_answer::No;
use keep_names::{Id, decode_hex, parse_id};
use std::alloc::{AllocError, Global};

/// The word that a line begins with, and what stands behind it.
pub(crate) fn cut<'a>(text: &'a str) -> (&'a str, &'a str) {
    match text.split_once(' ') {
        Some(parts) => parts,
        None => (text, ""),
    }
}

/// The part that a line begins with, and what stands behind it.
pub(crate) fn cut_part<'a>(text: &'a str) -> (&'a str, &'a str) {
    match text.split_once(" :: ") {
        Some(parts) => parts,
        None => (text, ""),
    }
}

/// The bytes that are written in hex.
pub(crate) fn bytes_in(alloc: Global, digits: &str) -> Result<Vec<u8>, No> {
    decode_hex(alloc, digits)?.ok_or(No::Case)
}

/// The ids that stand there, one or more.
pub(crate) fn ids_in(alloc: Global, words: &[&str]) -> Result<Vec<Id>, No> {
    let mut ids = Vec::new(alloc);
    for word in words {
        ids.push(parse_id(word)?)?;
    }
    Ok(ids)
}

/// The words between single spaces.
pub(crate) fn words_in<'a>(alloc: Global, text: &'a str) -> Result<Vec<&'a str>, AllocError> {
    text.split(' ').collect(alloc)
}

/// The names of a path, each behind a slash. A slash alone has none.
pub(crate) fn names_in<'a>(alloc: Global, path: &'a str) -> Result<Vec<&'a str>, AllocError> {
    if path == "/" {
        return Ok(Vec::new(alloc));
    }
    path.split('/').skip(1).collect(alloc)
}

/// The texts that are no empty ones.
pub(crate) fn texts_in(alloc: Global, words: &[&str]) -> Result<Vec<String>, AllocError> {
    let mut texts = Vec::new(alloc);
    for word in words {
        if !word.is_empty() {
            texts.push(String::from_str(alloc, word)?)?;
        }
    }
    Ok(texts)
}

/// What was written as bytes, as a text.
pub(crate) fn text_of(alloc: Global, bytes: &[u8]) -> Result<String, No> {
    Ok(String::from_utf8_lossy(alloc, bytes)?)
}
