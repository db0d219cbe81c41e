use crate::no_answer::No;
use std::alloc::Global;

pub(crate) fn short_in(word: &str) -> Result<u32, No> {
    word.parse().map_err(|_| No::Case)
}

pub(crate) fn long_in(word: &str) -> Result<u64, No> {
    word.parse().map_err(|_| No::Case)
}

/// A text, where the word isn't `-`.
pub(crate) fn text_in(alloc: Global, word: &str) -> Result<Option<String>, No> {
    if word == "-" {
        return Ok(None);
    }
    Ok(Some(String::from_str(alloc, word)?))
}
