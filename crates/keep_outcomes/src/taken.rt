use keep_book::TakenBack;
use keep_run::{Failure, Run, numbers_text, refused};

/// Prints which changes were taken back, and says why no more were.
pub fn print_taken(run: &Run<'_>, about: u64, taken: &TakenBack) -> Result<(), Failure> {
    let list = numbers_text(run, &taken.numbers)?;
    let text = if run.is_json {
        format!(in run.alloc; "{{\"undone\":[{list}]}}\n")?
    } else {
        format!(in run.alloc; "undone: {list}\n")?
    };
    run.print(text.as_bytes())?;
    match &taken.stopped {
        None => Ok(()),
        Some(refusal) => Err(refused(run, about, refusal)),
    }
}
