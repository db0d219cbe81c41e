//! Answers tables on real files, and on what people type and see. A line `== TABLE` names the table whose lines follow,
//! and answers with itself.
#![tactic(auto)]

mod case_words;
mod host;
mod no_case;
mod prints;
mod sources;
mod targets;
mod trees;
mod words;

use anyhow::{Result, anyhow};
use std::alloc::AllocError;
use std::sync::Wait;
use std::thread::Threads;

/// Answers the lines of the table that this head names. Before the first head there are none.
fn answer_part<T>(rt: &HostRuntime, threads: &T, head: &str, lines: &[String]) -> Result<()>
where
    T: Wait + Threads + Clone + Drop + Send + 'static,
{
    if head.is_empty() && lines.is_empty() {
        return Ok(());
    }
    println!(rt; "{head}")?;
    match head {
        "== trees" => trees::answer(rt, lines)?,
        "== sources" => sources::answer(rt, threads, lines)?,
        "== host" => host::answer(rt)?,
        "== targets" => targets::answer(rt, lines)?,
        "== prints" => prints::answer(rt, lines)?,
        "== words" => words::answer(rt, lines)?,
        _ => return Err(anyhow!("no such table")),
    }
    Ok(())
}

fn add(lines: &mut Vec<String>, line: String) -> Result<(), AllocError> {
    lines.push(line)?;
    Ok(())
}

fn main(rt: HostRuntime) -> Result<()> {
    let alloc = rt.alloc();
    let mut head = String::new(alloc);
    let mut lines = Vec::new(alloc);
    for line in rt.lines(alloc) {
        let line = line?;
        if line.starts_with("== ") {
            answer_part(&rt, &rt, head.as_str(), &lines)?;
            lines.clear();
            head = line;
        } else {
            add(&mut lines, line)?;
        }
    }
    answer_part(&rt, &rt, head.as_str(), &lines)
}
