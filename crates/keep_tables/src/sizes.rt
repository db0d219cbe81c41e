ghost use Rattle.std.specs.Prelude.{◌≡◌, ◌^◌, ◌<◌, ◌≤◌, ◌++◌, IfOk, OnOk, string_bytes};
ghost use Rattle.keep_tables.specs.Sizes.{size_text, thousandths_text};
ghost use Rattle.keep_tables.specs.Sizes as spec;

use crate::digits::push_digits;
use std::alloc::{AllocError, Global};

/// So many bytes in the greatest unit of which there is one, in thousandths of it: `17 B`, `1.234 MiB`. A half is rounded
/// to the even thousandth, as restic does it.
pub fn size(alloc: Global, bytes: u64) -> Result<String, AllocError>
    ensures { IfOk result (λ text. string_bytes text ≡ size_text bytes) }
{
    if bytes < 1 << 10 {
        format!(in alloc; "{bytes} B")
    } else if bytes < 1 << 20 {
        in_unit(alloc, bytes, 10, " KiB")
    } else if bytes < 1 << 30 {
        in_unit(alloc, bytes, 20, " MiB")
    } else if bytes < 1 << 40 {
        in_unit(alloc, bytes, 30, " GiB")
    } else {
        in_unit(alloc, bytes, 40, " TiB")
    }
}

/// In a unit of 2^power bytes.
fn in_unit(alloc: Global, bytes: u64, power: u32, unit: &str) -> Result<String, AllocError>
    requires { power ≤ 40 }
    ensures { IfOk result (λ text. string_bytes text ≡ spec.in_unit power unit.now bytes) }
{
    let thousandths = rounded(bytes as u128 * 1000, 1u128 << power);
    let mut text = thousandths_of(alloc, thousandths)?;
    text.push_str(unit)?;
    Ok(text)
}

/// The quotient rounded to the nearest number, a half to the even one.
fn rounded(number: u128, divisor: u128) -> u128
    requires some { 0 < divisor }
    requires below { divisor < 2 ^ 64 }
    ensures { result ≡ spec.rounded number divisor }
{
    let whole = number / divisor;
    let rest = 2 * (number % divisor);
    if rest < divisor {
        whole
    } else if divisor < rest {
        whole + 1
    } else {
        whole + whole % 2
    }
}

fn thousandths_of(alloc: Global, number: u128) -> Result<String, AllocError>
    ensures { IfOk result (λ text. string_bytes text ≡ thousandths_text number) }
{
    let mut text = format!(in alloc; "{}.", number / 1000)?;
    push_digits(&mut text, 10, 3, (number % 1000) as u32)?;
    Ok(text)
}
