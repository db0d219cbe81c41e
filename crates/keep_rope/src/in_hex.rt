ghost use Rattle.std.specs.Prelude.{◌≡◌, ◌++◌, ◌<◌, ◌≤◌, IsTrue, OnOk, length, slice_index};
ghost use Rattle.hex.specs.Hex.{encode_lower, lower_digits};

use std::alloc::AllocError;

/// So many bytes are written in hex at a time.
const PIECE: usize = 2048;

/// Appends the hex of the bytes.
pub(crate) fn push_hex(text: &mut Vec<u8>, bytes: &[u8]) -> Result<(), AllocError>
    ensures { OnOk result (text.new.items ≡ text.old.items ++ encode_lower bytes.now) }
{
    for piece in bytes.chunks(PIECE) {
        push_digits(text, piece)?;
    }
    Ok(())
}

fn push_digits(text: &mut Vec<u8>, piece: &[u8]) -> Result<(), AllocError>
    requires { length piece.now ≤ 2048 }
    ensures { OnOk result (text.new.items ≡ text.old.items ++ encode_lower piece.now) }
{
    let mut buffer = [0u8; 2 * PIECE];
    let digits = &mut buffer[..2 * piece.len()];
    hex::encode_to_slice(piece, digits).unwrap();
    text.extend_from_slice(digits)?;
    Ok(())
}

/// Whether the text is the hex of the bytes. No hex is made, and no step of the loop rests on a test, so that it is
/// done for many bytes at once.
pub(crate) fn is_hex_of(text: &[u8], bytes: &[u8]) -> bool
    ensures { IsTrue result → text.now ≡ encode_lower bytes.now }
{
    if text.len() != 2 * bytes.len() {
        return false;
    }
    let mut is_same = true;
    for (pair, byte) in text.as_chunks::<2>().0.iter().zip(bytes) {
        let high = pair[0] == digit_of(*byte / 16);
        let low = pair[1] == digit_of(*byte % 16);
        is_same = is_same & high & low;
    }
    is_same
}

/// The digit of a number below 16.
fn digit_of(number: u8) -> u8
    requires { number < 16 }
    ensures { result ≡ slice_index lower_digits number }
{
    if number < 10 {
        b'0' + number
    } else {
        b'a' + (number - 10)
    }
}
