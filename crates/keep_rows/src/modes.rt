ghost use Rattle.std.specs.Prelude.{◌≡◌, ◌++◌, ◌<◌, ◌≤◌, IfOk, OnOk, string_bytes};
ghost use Rattle.keep_rows.specs.Modes as spec;
ghost use Rattle.keep_rows.specs.Modes.{triple};

use std::alloc::{AllocError, Global};

/// The mode of a node, given by the bits of Go's os.FileMode, in the ten letters of `ls -l`: `drwxr-xr-x`.
pub fn mode_text(alloc: Global, mode: u32) -> Result<String, AllocError>
    ensures { IfOk result (λ text. string_bytes text ≡ spec.mode_text mode) }
{
    let mut text = String::with_capacity(alloc, 10)?;
    text.push(type_letter(mode))?;
    push_triple(&mut text, mode, 6, 23, ('s', 'S'))?;
    push_triple(&mut text, mode, 3, 22, ('s', 'S'))?;
    push_triple(&mut text, mode, 0, 20, ('t', 'T'))?;
    Ok(text)
}

fn has_bit(mode: u32, bit: u32) -> bool
    requires { bit < 32 }
    ensures { result ≡ spec.has_bit mode bit }
{
    (mode >> bit) % 2 == 1
}

fn type_letter(mode: u32) -> char
    ensures value { result ≡ spec.type_letter mode }
    ensures below { result < 128 }
{
    if has_bit(mode, 31) {
        'd'
    } else if has_bit(mode, 27) {
        'l'
    } else if has_bit(mode, 26) {
        if has_bit(mode, 21) { 'c' } else { 'b' }
    } else if has_bit(mode, 25) {
        'p'
    } else if has_bit(mode, 24) {
        's'
    } else {
        '-'
    }
}

/// Three letters by the lowest of their bits, the special bit, and the letters for it.
fn push_triple(
    text: &mut String,
    mode: u32,
    bit: u32,
    special: u32,
    letters: (char, char),
) -> Result<(), AllocError>
    requires bit { bit ≤ 6 }
    requires special { special < 32 }
    requires both { letters.0 < 128 }
    requires alone { letters.1 < 128 }
    ensures { OnOk result (string_bytes text.new
        ≡ string_bytes text.old ++ triple mode bit special letters.0 letters.1) }
{
    text.push(letter(mode, bit + 2, 'r'))?;
    text.push(letter(mode, bit + 1, 'w'))?;
    text.push(run_letter(mode, bit, special, letters))
}

fn letter(mode: u32, bit: u32, set: char) -> char
    requires bit { bit < 32 }
    requires set { set < 128 }
    ensures value { result ≡ spec.letter mode bit set }
    ensures below { result < 128 }
{
    if has_bit(mode, bit) { set } else { '-' }
}

fn run_letter(mode: u32, bit: u32, special: u32, letters: (char, char)) -> char
    requires bit { bit < 32 }
    requires special { special < 32 }
    requires both { letters.0 < 128 }
    requires alone { letters.1 < 128 }
    ensures value { result ≡ spec.run_letter mode bit special letters.0 letters.1 }
    ensures below { result < 128 }
{
    let (both, alone) = letters;
    if !has_bit(mode, special) {
        letter(mode, bit, 'x')
    } else if has_bit(mode, bit) {
        both
    } else {
        alone
    }
}
