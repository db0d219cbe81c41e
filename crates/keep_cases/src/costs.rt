//! Says of lines over repositories of several sizes whether each keeps to its bounds: how many calls of the shelf it
//! may make, and how much memory it may go through. Where the kernel doesn't tell that, only the calls are looked at.

ghost use Rattle.keep_book.specs.Armed.{HasSums};

mod cost_row;
mod counted;
mod fill_cost;
mod gone_through;

use crate::costs::cost_row::{Bounds, Row, row_of};
use crate::costs::counted::Counted;
use crate::costs::fill_cost::fill;
use crate::costs::gone_through::{forget, gone_through};
use anyhow::{Result, anyhow};
use keep_book::Book;
use keep_shelf::MemoryShelf;
use std::alloc::AllocError;

/// Answers the rows of the table, those of each size over a book of their own.
pub(crate) fn answer(rt: &HostRuntime, rows: &[String]) -> Result<()> {
    let mut case = Vec::new(rt.alloc());
    for row in rows {
        if row.starts_with('=') {
            answer_case(rt, &case)?;
            case.clear();
        }
        add(&mut case, row.as_str())?;
    }
    answer_case(rt, &case)
}

fn add<'a>(rows: &mut Vec<&'a str>, row: &'a str) -> Result<(), AllocError> {
    rows.push(row)?;
    Ok(())
}

/// Answers the rows of one size, over a book of their own.
fn answer_case(rt: &HostRuntime, rows: &[&str]) -> Result<()> {
    let alloc = rt.alloc();
    let Ok(mut book) = Book::open(alloc, Counted::new(MemoryShelf::new(alloc))) else {
        return Err(anyhow!("the shelf isn't opened"));
    };
    for row in rows {
        answer_row(rt, &mut book, row)?;
    }
    Ok(())
}

/// Has the line answered, and tells the last line of its answer, and what it took where that isn't within the bounds.
fn answer_counted(
    rt: &HostRuntime,
    book: &mut Book<Counted<MemoryShelf>>,
    bounds: Bounds,
    line: &str,
) -> Result<()>
    requires { HasSums book.old }
    ensures { HasSums book.new }
{
    let before = book.ledger().shelf().calls();
    let is_marked = forget(rt);
    let text = fill_cost::answer(rt.alloc(), book, line)?;
    let kib = if is_marked { gone_through(rt)? } else { 0 };
    let calls = book.ledger().shelf().calls().saturating_sub(before);
    let last = text.as_str().lines().last().unwrap_or("");
    if calls > bounds.calls || kib > bounds.kib {
        println!(rt; "{last}: {calls} calls, {kib} KiB")?;
    } else {
        println!(rt; "{last}: within")?;
    }
    Ok(())
}

/// Answers a row over the book, which a row of a size fills first.
fn answer_row(rt: &HostRuntime, book: &mut Book<Counted<MemoryShelf>>, row: &str) -> Result<()>
    requires { HasSums book.old }
    ensures { HasSums book.new }
{
    match row_of(row) {
        Some(Row::Nothing) => Ok(()),
        Some(Row::Size(changes, bytes)) => {
            println!(rt; "{row}")?;
            fill(rt.alloc(), book, changes, bytes)
        }
        Some(Row::Line(bounds, line)) => answer_counted(rt, book, bounds, line),
        None => Err(anyhow!("no row of the table")),
    }
}
