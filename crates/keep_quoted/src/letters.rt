ghost use Rattle.std.specs.Prelude.{◌≡◌, ◌<◌, IfSome};
ghost use Rattle.keep_quoted.specs.Quote as spec;
ghost use Rattle.keep_quoted.specs.Unquote.{named_byte};

use ucd_age::Age;
use ucd_category::{GeneralCategory, GeneralCategoryGroup};

/// Whether Go prints the character as it is, by the tables of Unicode 13.
pub(crate) fn is_printable(letter: char) -> bool
    ensures { result ≡ spec.is_printable letter }
{
    if letter == ' ' {
        return true;
    }
    let category = GeneralCategory::for_char(letter);
    if GeneralCategoryGroup::Other.contains(category) {
        return false;
    }
    if GeneralCategoryGroup::Separator.contains(category) {
        return false;
    }
    Age::for_char(letter).number() <= Age::V13_0.number()
}

/// The name that a character has behind a backslash.
pub(crate) fn letter_for(letter: char) -> Option<char>
    ensures value { result ≡ spec.letter_for letter }
    ensures ascii { IfSome result (λ name. name < 128) }
{
    match letter {
        '\x07' => Some('a'),
        '\x08' => Some('b'),
        '\x0c' => Some('f'),
        '\n' => Some('n'),
        '\r' => Some('r'),
        '\t' => Some('t'),
        '\x0b' => Some('v'),
        '"' => Some('"'),
        '\\' => Some('\\'),
        _ => None,
    }
}

/// The byte whose name a letter is.
pub(crate) fn byte_for(letter: u8) -> Option<u8>
    ensures { result ≡ named_byte letter }
{
    match letter {
        b'a' => Some(7),
        b'b' => Some(8),
        b'f' => Some(12),
        b'n' => Some(b'\n'),
        b'r' => Some(b'\r'),
        b't' => Some(b'\t'),
        b'v' => Some(11),
        b'"' => Some(b'"'),
        b'\\' => Some(b'\\'),
        _ => None,
    }
}
