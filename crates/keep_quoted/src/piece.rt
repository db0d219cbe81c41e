ghost use Rattle.std.specs.Prelude.{◌≡◌, ◌<◌, ◌≤◌, IfSome, length};
ghost use Rattle.keep_quoted.specs.Unquote as spec;

use crate::letters::byte_for;

/// What a piece of a text stands for.
#[derive(Clone, Copy)]
pub(crate) enum Meaning {
    Byte(u8),
    Letter(char),
}

/// The piece that begins with a byte: what it stands for, and how many more bytes it has.
pub(crate) fn piece_at(first: u8, behind: &[u8]) -> Option<(Meaning, usize)>
    ensures value { result ≡ spec.piece_at first behind.now }
    ensures within { IfSome result (λ piece. piece.1 ≤ length behind.now) }
{
    match first {
        b'\\' => escape_piece(behind),
        b'"' | b'\n' => None,
        _ => Some((Meaning::Byte(first), 0)),
    }
}

/// What stands behind a backslash.
fn escape_piece(text: &[u8]) -> Option<(Meaning, usize)>
    ensures value { result ≡ spec.escape_piece text.now }
    ensures within { IfSome result (λ piece. piece.1 ≤ length text.now) }
{
    let (first, behind) = text.split_first()?;
    match *first {
        b'x' => byte_piece(3, front_number(behind, 2)?),
        b'u' => letter_piece(5, front_number(behind, 4)?),
        b'U' => letter_piece(9, front_number(behind, 8)?),
        b'0'..=b'7' => byte_piece(3, octal_number(text)?),
        letter => named_piece(letter),
    }
}

/// The byte with a number.
fn byte_piece(more: usize, number: u32) -> Option<(Meaning, usize)>
    ensures value { result ≡ spec.byte_piece more number }
    ensures more { IfSome result (λ piece. piece.1 ≡ more) }
{
    let byte = u8::try_from(number).ok()?;
    Some((Meaning::Byte(byte), more))
}

/// The character with a number.
fn letter_piece(more: usize, number: u32) -> Option<(Meaning, usize)>
    ensures value { result ≡ spec.letter_piece more number }
    ensures more { IfSome result (λ piece. piece.1 ≡ more) }
{
    let letter = char::from_u32(number)?;
    Some((Meaning::Letter(letter), more))
}

fn named_piece(letter: u8) -> Option<(Meaning, usize)>
    ensures value { result ≡ spec.named_piece letter }
    ensures more { IfSome result (λ piece. piece.1 ≡ 1) }
{
    let byte = byte_for(letter)?;
    Some((Meaning::Byte(byte), 1))
}

/// The number that so many hex digits write with which a text begins.
fn front_number(text: &[u8], count: usize) -> Option<u32>
    requires { count ≤ 8 }
    ensures value { result ≡ spec.front_number 16 count text.now }
    ensures within { IfSome result (λ _. count ≤ length text.now) }
{
    if text.len() < count {
        return None;
    }
    hex_number(&text[..count])
}

fn hex_number(digits: &[u8]) -> Option<u32>
    requires { length digits.now ≤ 8 }
    ensures { result ≡ spec.number_in 16 0 digits.now }
{
    let mut value = 0;
    for digit in digits {
        value = value * 16 + (*digit as char).to_digit(16)?;
    }
    Some(value)
}

/// The number that three octal digits write with which a text begins.
fn octal_number(text: &[u8]) -> Option<u32>
    ensures value { result ≡ spec.front_number 8 3 text.now }
    ensures within { IfSome result (λ _. 3 ≤ length text.now) }
{
    let [high, middle, low, ..] = text else {
        return None;
    };
    let high = (*high as char).to_digit(8)?;
    let middle = (*middle as char).to_digit(8)?;
    let low = (*low as char).to_digit(8)?;
    Some((high * 8 + middle) * 8 + low)
}
