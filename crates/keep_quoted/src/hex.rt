ghost use Rattle.std.specs.Prelude.{◌≡◌, ◌<◌, ◌++◌, ◌∷◌, [], OnOk, string_bytes};
ghost use Rattle.std.specs.Char.{digit_char};
ghost use Rattle.keep_quoted.specs.Quote.{byte_escape, hex2, hex4};

use std::alloc::AllocError;

/// Writes a byte as `\x` and its two digits.
pub(crate) fn push_byte(text: &mut String, byte: u8) -> Result<(), AllocError>
    ensures { OnOk result (string_bytes text.new ≡ string_bytes text.old ++ byte_escape byte) }
{
    push_ascii(text, '\\')?;
    push_ascii(text, 'x')?;
    push_pair(text, byte)
}

/// Writes a number in four hex digits.
pub(crate) fn push_four(text: &mut String, number: u16) -> Result<(), AllocError>
    ensures { OnOk result (string_bytes text.new ≡ string_bytes text.old ++ hex4 number) }
{
    push_pair(text, (number / 256) as u8)?;
    push_pair(text, (number % 256) as u8)
}

/// Writes a character of ASCII.
pub(crate) fn push_ascii(text: &mut String, letter: char) -> Result<(), AllocError>
    requires { letter < 128 }
    ensures { OnOk result (string_bytes text.new ≡ string_bytes text.old ++ letter ∷ []) }
{
    text.push(letter)
}

fn push_pair(text: &mut String, byte: u8) -> Result<(), AllocError>
    ensures { OnOk result (string_bytes text.new ≡ string_bytes text.old ++ hex2 byte) }
{
    push_ascii(text, digit(byte / 16))?;
    push_ascii(text, digit(byte % 16))
}

/// The digit of a number below 16.
fn digit(number: u8) -> char
    requires { number < 16 }
    ensures value { result ≡ digit_char number }
    ensures ascii { result < 128 }
{
    match number {
        0..=9 => (b'0' + number) as char,
        _ => (b'a' - 10 + number) as char,
    }
}
