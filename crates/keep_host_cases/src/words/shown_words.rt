//! How values are shown.

use std::fmt;

/// A value, or a dash where there is none.
#[derive(Drop)]
pub(crate) struct Maybe<T>(pub Option<T>);

impl<T: fmt::Display> fmt::Display for Maybe<T> {
    fn fmt<W: fmt::Write>(&self, f: &mut fmt::Formatter<W>) -> fmt::Result {
        match &self.0 {
            Some(value) => write!(f, "{value}"),
            None => f.write_str("-"),
        }
    }
}

/// Texts in brackets.
#[derive(Clone, Copy)]
pub(crate) struct List<'a>(pub &'a [&'a str]);

impl fmt::Display for List<'_> {
    fn fmt<W: fmt::Write>(&self, f: &mut fmt::Formatter<W>) -> fmt::Result {
        f.write_str("[")?;
        for (place, text) in self.0.iter().enumerate() {
            if 0 < place {
                f.write_str("|")?;
            }
            f.write_str(text)?;
        }
        f.write_str("]")
    }
}

/// The word of a flag, or a dash where it isn't given.
pub(crate) fn given(is_given: bool, word: &'static str) -> &'static str {
    if is_given { word } else { "-" }
}
