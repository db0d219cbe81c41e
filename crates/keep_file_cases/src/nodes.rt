//! Answers a table of cases of names, members and modes of nodes, one a line, each in a line.

mod carrying;
mod found_text;
mod node_words;

use crate::case_words::bytes_in;
use crate::no_answer::No;
use crate::nodes::node_words::short_in;
use keep_members::{go_mode, unix_mode};
use keep_quoted::{quote, unquote};
use std::alloc::Global;
use std::str;

/// The answer to a line, which begins with this word.
pub(crate) fn answer(alloc: Global, word: &str, rest: &str) -> Result<String, No> {
    match word {
        "quote" => quoted(alloc, rest),
        "unquote" => unquoted(alloc, rest),
        "unquote-hex" => unquoted_digits(alloc, rest),
        "members" => carrying::carried(alloc, rest),
        "found" => found_text::found(alloc, rest),
        "go-mode" => Ok(format!(in alloc; "{}", go_mode(short_in(rest)?))?),
        "unix-mode" => Ok(format!(in alloc; "{}", unix_mode(short_in(rest)?))?),
        _ => Err(No::Case),
    }
}

/// The name of these bytes, quoted.
fn quoted(alloc: Global, digits: &str) -> Result<String, No> {
    let name = bytes_in(alloc, digits)?;
    Ok(quote(alloc, &name)?)
}

/// The bytes of a quoted name, in hex.
fn unquoted(alloc: Global, text: &str) -> Result<String, No> {
    match unquote(alloc, text)? {
        Some(bytes) => Ok(hex::encode(alloc, bytes)?),
        None => Ok(String::from_str(alloc, "none")?),
    }
}

/// The bytes, in hex, of a quoted name whose own text is written in hex.
fn unquoted_digits(alloc: Global, digits: &str) -> Result<String, No> {
    let text = bytes_in(alloc, digits)?;
    match str::from_utf8(&text) {
        Ok(text) => unquoted(alloc, text),
        Err(_) => Err(No::Case),
    }
}
