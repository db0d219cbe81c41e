ghost use Rattle.keep_book.specs.Armed.{HasSums};

use crate::answering::{answer_on, setup};
use crate::costs::counted::Counted;
use anyhow::{Result, anyhow};
use keep_book::Book;
use keep_jobs::Kit;
use keep_script::RunStatus;
use keep_shelf::MemoryShelf;
use std::alloc::{AllocError, Global};

/// What the line is answered.
pub(crate) fn answer(
    alloc: Global,
    book: &mut Book<Counted<MemoryShelf>>,
    line: &str,
) -> Result<String>
    requires { HasSums book.old }
    ensures { HasSums book.new }
{
    let mut kit = Kit {
        filters: Vec::new(alloc),
        vetoes: Vec::new(alloc),
        watches: Vec::new(alloc),
    };
    let mut text = Vec::new(alloc);
    match answer_on(setup(alloc), book, &mut kit, line, &mut text) {
        RunStatus::Done => Ok(String::from_utf8(text)?),
        _ => Err(anyhow!("a line isn't answered")),
    }
}

/// Makes so many backups, of one file of so many bytes each.
pub(crate) fn fill(
    alloc: Global,
    book: &mut Book<Counted<MemoryShelf>>,
    changes: u32,
    bytes: usize,
) -> Result<()>
    requires { HasSums book.old }
    ensures { HasSums book.new }
{
    let zeros = zeros(alloc, bytes)?;
    for number in 0..changes {
        let line = format!(in alloc; "backup web 2024-01-01T00:00:00Z /file={number:08x}{zeros}")?;
        answer(alloc, book, line.as_str())?;
    }
    Ok(())
}

/// The hex of so many bytes.
fn zeros(alloc: Global, bytes: usize) -> Result<String, AllocError> {
    let mut text = String::new(alloc);
    for _ in 0..bytes {
        text.push_str("00")?;
    }
    Ok(text)
}
