use crate::failure::Failure;
use crate::run::Run;
use keep_rows::{Row, document_of, table_of};

/// Prints the rows, as a table or as a list of objects.
pub fn print_rows<R: Row>(run: &Run<'_>, rows: &[R]) -> Result<(), Failure> {
    if run.is_json {
        let text = document_of(run.alloc, rows)?;
        return run.print(text.as_slice());
    }
    let text = table_of(run.alloc, rows)?;
    run.print(text.as_bytes())
}

/// The numbers, parted by commas.
pub fn numbers_text(run: &Run<'_>, numbers: &[u64]) -> Result<String, Failure> {
    let mut text = String::new(run.alloc);
    for number in numbers {
        if !text.is_empty() {
            text.push_str(", ")?;
        }
        let word = format!(in run.alloc; "{number}")?;
        text.push_str(word.as_str())?;
    }
    Ok(text)
}
