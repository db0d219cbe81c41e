use keep_run::{Failure, Run};
use std::fs;
use std::io::{self, ErrorKind};
use std::path::Path;

/// The path from the root of what the word means. Links on the way there are followed, and one that it ends in isn't.
pub(crate) fn place_of(run: &Run<'_>, word: &str) -> Result<String, Failure> {
    match found(run, word) {
        Ok(path) => Ok(path),
        Err(error) if error.kind() == ErrorKind::OutOfMemory => Err(Failure::Memory),
        Err(error) => {
            let cause = format!(in run.alloc; "cannot back up {word}: {error}")?;
            Err(Failure::Refused(cause))
        }
    }
}

fn found(run: &Run<'_>, word: &str) -> io::Result<String> {
    fs::symlink_metadata(run.rt, word)?;
    let path = Path::new(word);
    let (Some(parent), Some(name)) = (path.parent(), path.file_name()) else {
        let whole = fs::canonicalize(run.rt, word)?;
        return Ok(String::from_str(run.alloc, whole.as_str())?);
    };
    let parent = if parent.as_str().is_empty() {
        "."
    } else {
        parent.as_str()
    };
    let parent = fs::canonicalize(run.rt, parent)?;
    let whole = parent.join(run.alloc, name)?;
    Ok(String::from_str(run.alloc, whole.as_str())?)
}
