//! Answers tables of what files, nodes of trees and journal entries say, one case a line: in a line, what was read, or
//! the refusal. A line `== TABLE` names the table of the lines that follow. It answers with itself, as comments and
//! empty lines do.
#![tactic(auto)]

mod case_words;
mod entries;
mod no_answer;
mod nodes;
mod reads;

use crate::case_words::cut;
use crate::no_answer::No;
use std::alloc::Global;
use std::io;

/// The answer to a line of this table.
fn answer(alloc: Global, table: &str, line: &str) -> Result<String, No> {
    let (word, rest) = cut(line);
    match (word, table) {
        ("" | "#" | "==", _) => Ok(String::from_str(alloc, line)?),
        (_, "reads") => reads::answer(alloc, word, rest),
        (_, "nodes") => nodes::answer(alloc, word, rest),
        (_, "entries") => entries::answer(alloc, word, rest),
        _ => Err(No::Case),
    }
}

fn main(rt: HostRuntime) -> io::Result<()> {
    let alloc = rt.alloc();
    let mut table = String::new(alloc);
    for line in rt.lines(alloc) {
        let line = line?;
        if let Some(name) = line.strip_prefix("== ") {
            table = String::from_str(alloc, name)?;
        }
        match answer(alloc, table.as_str(), line.as_str()) {
            Ok(text) => println!(rt; "{text}")?,
            Err(no) => println!(rt; "no {no}")?,
        }
    }
    Ok(())
}
