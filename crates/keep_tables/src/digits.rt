ghost use Rattle.std.specs.Prelude.{◌≡◌, ◌++◌, ◌<◌, OnOk, string_bytes};
ghost use Rattle.std.specs.Int.{IsInRange};
ghost use Rattle.keep_tables.specs.Digits.{digit, last_digits};

use std::alloc::AllocError;

/// Writes the last digits of the number, this many.
pub(crate) fn push_digits(
    text: &mut String,
    base: u32,
    count: u32,
    number: u32,
) -> Result<(), AllocError>
    requires { IsInRange 2 16 base }
    ensures { OnOk result (string_bytes text.new ≡ string_bytes text.old ++ last_digits base count number) }
{
    if count == 0 {
        return Ok(());
    }
    push_digits(text, base, count - 1, number / base)?;
    text.push(digit_of(number % base))
}

fn digit_of(value: u32) -> char
    requires { value < 16 }
    ensures { result ≡ digit value }
{
    let code = if value < 10 { 48 + value } else { 87 + value };
    code as u8 as char
}
