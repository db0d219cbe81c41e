use crate::no_case::No;
use percent_encoding::{AsciiSet, CONTROLS, percent_decode_str, utf8_percent_encode};
use std::alloc::{AllocError, Global};

/// What is written as `%XX`, beside what isn't ASCII.
fn escaped() -> AsciiSet {
    CONTROLS.add(b' ').add(b'%').add(b';')
}

/// The words between single spaces.
pub(crate) fn words_in<'a>(alloc: Global, text: &'a str) -> Result<Vec<&'a str>, AllocError> {
    text.split(' ').collect(alloc)
}

/// A text of a word in which some characters are written as `%XX`. A dot alone is the empty text.
pub(crate) fn text_of(alloc: Global, word: &str) -> Result<String, No> {
    if word == "." {
        return Ok(String::new(alloc));
    }
    match percent_decode_str(word).decode_utf8(alloc) {
        Ok(text) => Ok(String::from_str(alloc, &text)?),
        Err(_) => Err(No::Case),
    }
}

/// The word of a text.
pub(crate) fn word_of(alloc: Global, text: &str) -> Result<String, AllocError> {
    let mut word = String::new(alloc);
    if text.is_empty() {
        word.push('.')?;
    }
    utf8_percent_encode(text, escaped()).append_to(&mut word)?;
    Ok(word)
}
