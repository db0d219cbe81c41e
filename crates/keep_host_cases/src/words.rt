//! Answers a table of words, those of one call of `keep` a line, each in a line: what they ask, or the kind of the
//! error and its status.
//!
//! The words behind the program's name stand one space apart. In a word `^` is a space, and the word `~` is the empty
//! one. Empty lines and `#` are passed over.

mod printed_words;
mod shown_words;

use crate::words::printed_words::print_words;
use keep_typed::read_words;
use std::alloc::{AllocError, Global};
use std::io::{self, BufWriter, Write};

/// Answers the lines of the table.
pub(crate) fn answer(rt: &HostRuntime, lines: &[String]) -> io::Result<()> {
    let alloc = rt.alloc();
    let mut writer = BufWriter::new(alloc, rt.stdout())?;
    for line in lines {
        if !line.is_empty() && !line.starts_with('#') {
            answer_words(alloc, line.as_str(), &mut writer)?;
        }
    }
    writer.flush()
}

/// Answers the words of a line.
fn answer_words<W: Write>(alloc: Global, line: &str, writer: &mut W) -> io::Result<()> {
    let typed = words_in(alloc, line)?;
    let words: Vec<&str> = typed.iter().map(|word| word.as_str()).collect(alloc)?;
    match read_words(alloc, words.as_slice()) {
        Ok(words) => print_words(&words, writer),
        Err(error) => writeln!(writer, "no {:?} {}", error.kind(), error.exit_code()),
    }
}

/// The words of a line, behind the program's name.
fn words_in(alloc: Global, line: &str) -> Result<Vec<String>, AllocError> {
    let mut words = Vec::new(alloc);
    words.push(String::from_str(alloc, "keep")?)?;
    for word in line.split(' ') {
        let text = if word == "~" { "" } else { word };
        words.push(text.replace(alloc, "^", " ")?)?;
    }
    Ok(words)
}
