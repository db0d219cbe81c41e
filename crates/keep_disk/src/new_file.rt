ghost use Rattle.std.specs.Prelude.{◌≡◌, ◌++◌, ◌≤◌, ℕ, IfOk, List, OnOk, [], length, vec_len};
ghost use Rattle.hex.specs.Hex.{encode_lower};
ghost use Rattle.keep_rope.specs.Pieces.{joined, piece_bytes};

use keep_rope::{Piece, Rope};
use std::alloc::{AllocError, Global};
use std::fs::File;
use std::io::{self, Write};

/// So many bytes are written in hex at a time.
const PART: usize = 32_768;

/// A new file. No contract of std's says what a file holds, so what is known of one are predicates of what its calls
/// answered.
pub(crate) trait NewFile {
    ghost use Rattle.std.specs.Prelude.{◌++◌, ℕ, List};

    /// It has just these bytes.
    ghost holds: { Self → List ℕ → Type 0 };

    /// And they outlast a loss of power.
    ghost keeps: { Self → List ℕ → Type 0 };

    /// Writes bytes behind those that it has.
    fn append(&mut self, bytes: &[u8]) -> io::Result<()>
        ensures { (before : List ℕ) → holds self.old before
            → OnOk result (holds self.new (before ++ bytes.now)) };

    fn sync_whole(&mut self) -> io::Result<()>
        ensures { (bytes : List ℕ) → holds self.old bytes → OnOk result (keeps self.new bytes) };
}

impl NewFile for File {
    ghost holds = { λ _ _. Unit {0} };

    ghost keeps = { λ _ _. Unit {0} };

    fn append(&mut self, bytes: &[u8]) -> io::Result<()> {
        self.write_all(bytes)
    }

    fn sync_whole(&mut self) -> io::Result<()> {
        self.sync_all()
    }
}

/// Writes the bytes into a new file, and has them outlast a loss of power.
pub(crate) fn write_lasting<F: NewFile>(alloc: Global, file: &mut F, bytes: &Rope) -> io::Result<()>
    requires { F.holds file.old [] }
    ensures { OnOk result (F.keeps file.new bytes.now) }
{
    write_rope(alloc, file, bytes)?;
    file.sync_whole()
}

/// Writes the bytes, those in pieces piece by piece.
fn write_rope<F: NewFile>(alloc: Global, file: &mut F, bytes: &Rope) -> io::Result<()>
    requires { F.holds file.old [] }
    ensures { OnOk result (F.holds file.new bytes.now) }
{
    match bytes.pieces() {
        Some(pieces) => write_pieces(alloc, file, pieces),
        None => {
            let whole = bytes.bytes(alloc)?;
            file.append(whole.as_slice())
        }
    }
}

/// Writes the pieces one after another. Hex is made in one buffer, a part of it at a time.
fn write_pieces<F: NewFile>(alloc: Global, file: &mut F, pieces: &[Piece]) -> io::Result<()>
    requires { F.holds file.old [] }
    ensures { OnOk result (F.holds file.new (joined pieces.now)) }
{
    let mut digits = room_for_digits(alloc)?;
    for piece in pieces {
        write_piece(file, piece, digits.as_mut_slice())?;
    }
    Ok(())
}

/// Room for the hex of a part.
fn room_for_digits(alloc: Global) -> Result<Vec<u8>, AllocError>
    ensures { IfOk result (λ room. vec_len room ≡ 65536) }
{
    vec![in alloc; 0u8; 2 * PART]
}

fn write_piece<F: NewFile>(file: &mut F, piece: &Piece, digits: &mut [u8]) -> io::Result<()>
    requires { length digits.old ≡ 65536 }
    ensures { (before : List ℕ) → F.holds file.old before
        → OnOk result (F.holds file.new (before ++ piece_bytes piece.now)) }
{
    match piece {
        Piece::Plain(text) => file.append(text.as_slice()),
        Piece::Hex(bytes) => write_hex(file, bytes.as_slice(), digits),
    }
}

/// Writes the hex of the bytes, which is never made as a whole.
fn write_hex<F: NewFile>(file: &mut F, bytes: &[u8], digits: &mut [u8]) -> io::Result<()>
    requires { length digits.old ≡ 65536 }
    ensures { (before : List ℕ) → F.holds file.old before
        → OnOk result (F.holds file.new (before ++ encode_lower bytes.now)) }
{
    for part in bytes.chunks(PART) {
        write_digits(file, part, digits)?;
    }
    Ok(())
}

/// Writes the hex of a part.
fn write_digits<F: NewFile>(file: &mut F, part: &[u8], digits: &mut [u8]) -> io::Result<()>
    requires part { length part.now ≤ 32768 }
    requires digits { length digits.old ≡ 65536 }
    ensures { (before : List ℕ) → F.holds file.old before
        → OnOk result (F.holds file.new (before ++ encode_lower part.now)) }
{
    let digits = &mut digits[..2 * part.len()];
    hex::encode_to_slice(part, digits).unwrap();
    file.append(digits)
}
