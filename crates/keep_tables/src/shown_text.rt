ghost use Rattle.std.specs.Prelude.{◌≡◌, ◌++◌, ◌||◌, IfOk, OnOk, string_bytes};
ghost use Rattle.std.specs.Char.{is_control};
ghost use Rattle.keep_tables.specs.Shown as spec;
ghost use Rattle.keep_tables.specs.Shown.{escape, shown_char, shown_text};

use crate::digits::push_digits;
use std::alloc::{AllocError, Global};

/// The text as a line can hold it: control characters, ends of lines and paragraphs, and what turns the direction of
/// writing stand as Go's strconv.Quote writes them (`\n`, `\x1b`, `\u202e`). All else stands as it is, `\` too.
pub fn shown(alloc: Global, text: &str) -> Result<String, AllocError>
    ensures { IfOk result (λ made. string_bytes made ≡ shown_text text.now) }
{
    let letters: Vec<char> = text.chars().collect(alloc)?;
    shown_letters(alloc, &letters)
}

fn shown_letters(alloc: Global, letters: &[char]) -> Result<String, AllocError>
    ensures { IfOk result (λ made. string_bytes made ≡ spec.shown_chars letters.now) }
{
    let mut made = String::with_capacity(alloc, letters.len())?;
    for letter in letters {
        push_shown(&mut made, *letter)?;
    }
    Ok(made)
}

fn push_shown(text: &mut String, letter: char) -> Result<(), AllocError>
    ensures { OnOk result (string_bytes text.new ≡ string_bytes text.old ++ shown_char letter) }
{
    if letter.is_control() || is_directing(letter) {
        push_escape(text, letter as u32)
    } else {
        text.push(letter)
    }
}

/// Whether the character ends a line or a paragraph, or turns the direction of writing.
fn is_directing(letter: char) -> bool
    ensures { result ≡ spec.is_directing letter }
{
    matches!(
        letter,
        '\u{61c}' | '\u{200e}'..='\u{200f}' | '\u{2028}'..='\u{202e}' | '\u{2066}'..='\u{2069}'
    )
}

fn push_escape(text: &mut String, code: u32) -> Result<(), AllocError>
    ensures { OnOk result (string_bytes text.new ≡ string_bytes text.old ++ escape code) }
{
    if 7 <= code && code <= 13 {
        let letter = b"abtnvfr"[code as usize - 7] as char;
        text.push('\\')?;
        text.push(letter)
    } else if code < 128 {
        text.push_str("\\x")?;
        push_digits(text, 16, 2, code)
    } else {
        text.push_str("\\u")?;
        push_digits(text, 16, 4, code)
    }
}
