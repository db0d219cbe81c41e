//! Answers tables of what the program's lines cost, of scripts over shelves, and of the program's runs. A line
//! `== TABLE` names the table whose lines follow, and answers with itself.
#![tactic(auto)]

mod answering;
mod costs;
mod runs;
mod shelves;

use anyhow::{Result, anyhow};
use std::alloc::AllocError;

/// Answers the lines of the table that this head names. Before the first head there are none.
fn answer_part(rt: &HostRuntime, head: &str, lines: &[String]) -> Result<()> {
    if head.is_empty() && lines.is_empty() {
        return Ok(());
    }
    println!(rt; "{head}")?;
    match head {
        "== costs" => costs::answer(rt, lines)?,
        "== shelves" => shelves::answer(rt, lines)?,
        "== runs" => runs::answer(rt, lines)?,
        _ => return Err(anyhow!("no such table")),
    }
    Ok(())
}

fn add(lines: &mut Vec<String>, line: String) -> Result<(), AllocError> {
    lines.push(line)?;
    Ok(())
}

fn main(rt: HostRuntime) -> Result<()> {
    let alloc = rt.alloc();
    let mut head = String::new(alloc);
    let mut lines = Vec::new(alloc);
    for line in rt.lines(alloc) {
        let line = line?;
        if line.starts_with("== ") {
            answer_part(&rt, head.as_str(), &lines)?;
            lines.clear();
            head = line;
        } else {
            add(&mut lines, line)?;
        }
    }
    answer_part(&rt, head.as_str(), &lines)
}
