//! Answers tables on repositories that no script can make, and on what snapshots have by path. A line `== TABLE` names
//! the table whose lines follow, and answers with itself.
#![tactic(auto)]

mod blob_pack;
mod case_words;
mod listings;
mod states;
mod stop;

use anyhow::{Result, anyhow};
use std::alloc::AllocError;

/// Answers the lines of the table that this head names. Before the first head there are none.
fn answer_part(rt: &HostRuntime, head: &str, lines: &[String]) -> Result<()> {
    if head.is_empty() && lines.is_empty() {
        return Ok(());
    }
    println!(rt; "{head}")?;
    match head {
        "== states" => states::answer(rt, lines)?,
        "== listings" => listings::answer(rt, lines)?,
        _ => return Err(anyhow!("no such table")),
    }
    Ok(())
}

fn add(lines: &mut Vec<String>, line: String) -> Result<(), AllocError> {
    lines.push(line)?;
    Ok(())
}

fn main(rt: HostRuntime) -> Result<()> {
    let alloc = rt.alloc();
    let mut head = String::new(alloc);
    let mut lines = Vec::new(alloc);
    for line in rt.lines(alloc) {
        let line = line?;
        if line.starts_with("== ") {
            answer_part(&rt, head.as_str(), &lines)?;
            lines.clear();
            head = line;
        } else {
            add(&mut lines, line)?;
        }
    }
    answer_part(&rt, head.as_str(), &lines)
}
