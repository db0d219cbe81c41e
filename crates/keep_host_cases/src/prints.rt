//! Answers a table of cases, one a line, each in a line: what is printed, with its line ends written out.

mod print_texts;
mod print_words;
mod rows;

use crate::no_case::No;
use crate::prints::print_words::{cut, text_in};
use std::alloc::Global;
use std::io;

/// Answers the lines of the table.
pub(crate) fn answer(rt: &HostRuntime, lines: &[String]) -> io::Result<()> {
    for line in lines {
        match answer_line(rt.alloc(), line.as_str()) {
            Ok(text) => println!(rt; "{text}")?,
            Err(no) => println!(rt; "no such {no}")?,
        }
    }
    Ok(())
}

/// The answer to a line. Comments and empty lines answer with themselves.
fn answer_line(alloc: Global, line: &str) -> Result<String, No> {
    let (word, rest) = cut(line);
    match word {
        "" | "#" => Ok(String::from_str(alloc, line)?),
        "x" => answer_digits(alloc, rest),
        _ => answer_text(alloc, word, rest),
    }
}

/// A case whose text is written in hex.
fn answer_digits(alloc: Global, text: &str) -> Result<String, No> {
    let (word, digits) = cut(text);
    let text = text_in(alloc, digits)?;
    answer_text(alloc, word, text.as_str())
}

fn answer_text(alloc: Global, word: &str, text: &str) -> Result<String, No> {
    match word {
        "size" => print_texts::size(alloc, text),
        "local" => print_texts::local(alloc, text),
        "utc" => print_texts::utc(alloc, text),
        "mode" => print_texts::mode(alloc, text),
        "shown" => print_texts::shown(alloc, text),
        "table" => print_texts::table(alloc, text),
        "node" => rows::node(alloc, text),
        "difference" => rows::difference(alloc, text),
        "finding" => rows::finding(alloc, text),
        "snapshot" => rows::snapshot(alloc, text),
        _ => Err(No::Case),
    }
}
