//! Answers a table of cases, one a line, each in a line: what was read, written again, or the refusal.

mod docs;
mod indexes;
mod name_answers;
mod packs;
mod patterns;
mod snaps;
mod times;
mod trees;

use crate::case_words::{bytes_in, cut};
use crate::no_answer::No;
use std::alloc::Global;
use std::str;

/// The answer to a line, which begins with this word.
pub(crate) fn answer(alloc: Global, word: &str, rest: &str) -> Result<String, No> {
    match word {
        "x" => answer_digits(alloc, rest),
        _ => answer_bytes(alloc, word, rest.as_bytes()),
    }
}

/// A case whose bytes are written in hex.
fn answer_digits(alloc: Global, text: &str) -> Result<String, No> {
    let (word, digits) = cut(text);
    let bytes = bytes_in(alloc, digits)?;
    answer_bytes(alloc, word, &bytes)
}

fn answer_bytes(alloc: Global, word: &str, bytes: &[u8]) -> Result<String, No> {
    match word {
        "doc" => docs::doc(alloc, bytes),
        "config" => docs::config(alloc, bytes),
        "tree" => trees::tree(alloc, bytes),
        "index" => indexes::index(alloc, bytes),
        "snapshot" => snaps::snapshot(alloc, bytes),
        "pack" => packs::pack(alloc, bytes),
        _ => match str::from_utf8(bytes) {
            Ok(text) => answer_text(alloc, word, text),
            Err(_) => Err(No::Case),
        },
    }
}

fn answer_text(alloc: Global, word: &str, text: &str) -> Result<String, No> {
    match word {
        "memory" => docs::memory(text),
        "digest" => name_answers::digest(alloc, text),
        "id" => name_answers::id(alloc, text),
        "hex" => name_answers::hex(alloc, text),
        "file" => name_answers::file(alloc, text),
        "build" => packs::build(alloc, text),
        "time" => times::time(alloc, text),
        "moment" => times::moment(alloc, text),
        _ => answer_parts(alloc, word, text),
    }
}

/// A case of several parts.
fn answer_parts(alloc: Global, word: &str, text: &str) -> Result<String, No> {
    match word {
        "nodes" => trees::nodes(alloc, text),
        "name" => trees::name(alloc, text),
        "pattern" => patterns::pattern(alloc, text),
        "matches" => patterns::matches(alloc, text),
        "rests" => patterns::rests(alloc, text),
        "without" => patterns::without(alloc, text),
        "join" => indexes::join(alloc, text),
        "leaving" => indexes::leaving(alloc, text),
        "retag" => snaps::retag(alloc, text),
        "retree" => snaps::retree(alloc, text),
        "facts" => snaps::facts(alloc, text),
        _ => Err(No::Case),
    }
}
