ghost use Rattle.std.specs.Prelude.{◌≡◌, ◌++◌, IfOk, OnOk, string_bytes};
ghost use Rattle.keep_quoted.specs.Quote.{bytes_quoted, escape, number_escape, quoted, text_quoted};

use crate::hex::{push_ascii, push_byte, push_four};
use crate::letters::{is_printable, letter_for};
use std::alloc::{AllocError, Global};

/// A node's name as a tree has it: what Go's strconv.Quote writes between its quotes. Bytes that are no UTF-8 become
/// `\xff` and the like.
pub fn quote(alloc: Global, name: &[u8]) -> Result<String, AllocError>
    ensures { IfOk result (λ text. string_bytes text ≡ quoted name.now) }
{
    let mut text = String::new(alloc);
    for chunk in name.utf8_chunks() {
        push_text(&mut text, chunk.valid())?;
        push_bytes(&mut text, chunk.invalid())?;
    }
    Ok(text)
}

fn push_text(text: &mut String, more: &str) -> Result<(), AllocError>
    ensures { OnOk result (string_bytes text.new ≡ string_bytes text.old ++ text_quoted more.now) }
{
    for letter in more.chars() {
        push_letter(text, letter)?;
    }
    Ok(())
}

fn push_bytes(text: &mut String, more: &[u8]) -> Result<(), AllocError>
    ensures { OnOk result (string_bytes text.new ≡ string_bytes text.old ++ bytes_quoted more.now) }
{
    for byte in more {
        push_byte(text, *byte)?;
    }
    Ok(())
}

fn push_letter(text: &mut String, letter: char) -> Result<(), AllocError>
    ensures { OnOk result (string_bytes text.new ≡ string_bytes text.old ++ escape letter) }
{
    if let Some(name) = letter_for(letter) {
        push_ascii(text, '\\')?;
        return push_ascii(text, name);
    }
    if is_printable(letter) {
        return text.push(letter);
    }
    push_number(text, letter as u32)
}

/// Writes a character by its number.
fn push_number(text: &mut String, number: u32) -> Result<(), AllocError>
    ensures { OnOk result (string_bytes text.new ≡ string_bytes text.old ++ number_escape number) }
{
    if number < 32 || number == 127 {
        return push_byte(text, number as u8);
    }
    push_ascii(text, '\\')?;
    if number < 0x1_0000 {
        push_ascii(text, 'u')?;
        return push_four(text, number as u16);
    }
    push_ascii(text, 'U')?;
    push_four(text, (number / 0x1_0000) as u16)?;
    push_four(text, (number % 0x1_0000) as u16)
}
