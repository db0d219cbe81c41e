ghost use Rattle.std.specs.Prelude.{◌≡◌, ◌<◌, [], ◌∷◌, IsTrue, false, option_map};
ghost use Rattle.std.specs.Char.{digit_char};
ghost use Rattle.std.specs.Str.{bytes_eq};
ghost use Rattle.json.specs.Print.{escape, escape_byte, escape_letter, quoted};
ghost use Rattle.serde_json.specs.View.{items_view, members_view, number_view, view};
ghost use Rattle.serde_json.specs.Written.{comma_if, compact_text, items_text, members_text, number_text};
ghost use Rattle.keep_docs.specs.Behind.{behind, key_text};

use serde_json::{Map, Number, Value};

/// Whether the bytes are the text that `write_doc` writes of a document. That text isn't made: the bytes are gone
/// through piece by piece, up to the first that differs.
#[tactic(auto, using(crate::proofs::Behind::nothing_left))]
pub fn is_text_of(value: &Value, bytes: &[u8]) -> bool
    ensures { result ≡ bytes_eq bytes.now (compact_text (view value.now)) }
{
    match behind_value(value, bytes) {
        Some(rest) => rest.is_empty(),
        None => false,
    }
}

/// What stands behind a piece of text.
fn behind_piece<'b>(piece: &[u8], bytes: &'b [u8]) -> Option<&'b [u8]>
    ensures { option_map (λ rest. rest.now) result ≡ behind piece.now bytes.now }
{
    bytes.strip_prefix(piece)
}

/// What stands behind a value.
#[cycle(behind_value)]
fn behind_value<'b>(value: &Value, bytes: &'b [u8]) -> Option<&'b [u8]>
    ensures { option_map (λ rest. rest.now) result ≡ behind (compact_text (view value.now)) bytes.now }
{
    match value {
        Value::Null => behind_piece(b"null", bytes),
        Value::Bool(true) => behind_piece(b"true", bytes),
        Value::Bool(false) => behind_piece(b"false", bytes),
        Value::Number(number) => behind_number(*number, bytes),
        Value::String(text) => behind_quoted(text, bytes),
        Value::Array(items) => behind_items(items, behind_piece(b"[", bytes)?),
        Value::Object(members) => behind_members(members, behind_piece(b"{", bytes)?),
    }
}

/// What stands behind the values of a list and its closing bracket.
#[cycle(behind_value)]
fn behind_items<'b>(items: &Vec<Value>, bytes: &'b [u8]) -> Option<&'b [u8]>
    ensures { option_map (λ rest. rest.now) result
        ≡ behind (items_text false (items_view items.now.items)) bytes.now }
{
    let mut rest = bytes;
    let mut later = false;
    for item in items {
        rest = behind_comma(later, rest)?;
        rest = behind_value(item, rest)?;
        later = true;
    }
    behind_piece(b"]", rest)
}

/// What stands behind the members of an object and its closing bracket.
#[cycle(behind_value)]
fn behind_members<'b>(members: &Map<String, Value>, bytes: &'b [u8]) -> Option<&'b [u8]>
    ensures { option_map (λ rest. rest.now) result
        ≡ behind (members_text false (members_view members.now.entries)) bytes.now }
{
    let mut rest = bytes;
    let mut later = false;
    for (key, member) in members.iter() {
        rest = behind_key(later, key, rest)?;
        rest = behind_value(member, rest)?;
        later = true;
    }
    behind_piece(b"}", rest)
}

/// What stands behind the comma before what isn't the first.
fn behind_comma<'b>(later: bool, bytes: &'b [u8]) -> Option<&'b [u8]>
    ensures { option_map (λ rest. rest.now) result ≡ behind (comma_if later) bytes.now }
{
    behind_piece(if later { b"," } else { b"" }, bytes)
}

/// What stands behind a key of an object.
fn behind_key<'b>(later: bool, key: &str, bytes: &'b [u8]) -> Option<&'b [u8]>
    ensures { option_map (λ rest. rest.now) result ≡ behind (key_text later key.now) bytes.now }
{
    let rest = behind_comma(later, bytes)?;
    let rest = behind_quoted(key, rest)?;
    behind_piece(b":", rest)
}

/// What stands behind a number. A float has no text here.
fn behind_number<'b>(number: Number, bytes: &'b [u8]) -> Option<&'b [u8]>
    ensures { option_map (λ rest. rest.now) result ≡ behind (number_text (number_view number)) bytes.now }
{
    let mut digits = itoa::Buffer::new();
    if let Some(whole) = number.as_u64() {
        return behind_piece(digits.format(whole).as_bytes(), bytes);
    }
    match number.as_i64() {
        Some(below_zero) => behind_piece(digits.format(below_zero).as_bytes(), bytes),
        None => Some(bytes),
    }
}

/// What stands behind a text in quotes.
fn behind_quoted<'b>(text: &str, bytes: &'b [u8]) -> Option<&'b [u8]>
    ensures { option_map (λ rest. rest.now) result ≡ behind (quoted text.now) bytes.now }
{
    let rest = behind_piece(b"\"", bytes)?;
    let rest = behind_escaped(text.as_bytes(), rest)?;
    behind_piece(b"\"", rest)
}

/// What stands behind a text as it is written between quotes.
fn behind_escaped<'b>(text: &[u8], bytes: &'b [u8]) -> Option<&'b [u8]>
    ensures { option_map (λ rest. rest.now) result ≡ behind (escape text.now) bytes.now }
{
    if is_plain(text) {
        return behind_piece(text, bytes);
    }
    let mut rest = bytes;
    for byte in text {
        rest = behind_byte(*byte, rest)?;
    }
    Some(rest)
}

/// Whether a text is written as it is. Each byte is looked at, since that is faster than to stop at one.
fn is_plain(text: &[u8]) -> bool
    ensures { IsTrue result → escape text.now ≡ text.now }
{
    let mut plain = true;
    for byte in text {
        plain &= is_plain_byte(*byte);
    }
    plain
}

fn is_plain_byte(byte: u8) -> bool
    ensures { IsTrue result → escape_byte byte ≡ byte ∷ [] }
{
    byte >= 0x20 && byte != b'"' && byte != b'\\'
}

/// What stands behind a byte as it is written between quotes.
fn behind_byte<'b>(byte: u8, bytes: &'b [u8]) -> Option<&'b [u8]>
    ensures { option_map (λ rest. rest.now) result ≡ behind (escape_byte byte) bytes.now }
{
    let letter = letter_for(byte);
    if letter > 0 {
        return behind_piece(&[b'\\', letter], bytes);
    }
    if byte < 0x20 {
        let digits = [
            b'\\',
            b'u',
            b'0',
            b'0',
            hex_digit(byte / 16),
            hex_digit(byte % 16),
        ];
        return behind_piece(&digits, bytes);
    }
    behind_piece(&[byte], bytes)
}

/// The letter that stands for a byte behind a backslash, 0 where there is none.
fn letter_for(byte: u8) -> u8
    ensures { result ≡ escape_letter byte }
{
    match byte {
        b'"' | b'\\' => byte,
        8 => b'b',
        12 => b'f',
        b'\n' => b'n',
        b'\r' => b'r',
        b'\t' => b't',
        _ => 0,
    }
}

/// The digit of a number below 16.
fn hex_digit(digit: u8) -> u8
    requires { digit < 16 }
    ensures { result ≡ digit_char digit }
{
    match digit {
        0..=9 => b'0' + digit,
        _ => b'a' - 10 + digit,
    }
}
