ghost use Rattle.std.specs.Prelude.{◌≡◌, ◌++◌, IfOk, IsTrue, OnOk};
ghost use Rattle.keep_rope.specs.Pieces.{joined, piece_bytes};

use crate::in_hex::push_hex;
use crate::piece::Piece;
use std::alloc::{AllocError, Global};

/// The bytes that the pieces stand for.
pub(crate) fn join(alloc: Global, pieces: &[Piece]) -> Result<Vec<u8>, AllocError>
    ensures { IfOk result (λ bytes. bytes.items ≡ joined pieces.now) }
{
    let mut bytes = Vec::new(alloc);
    for piece in pieces {
        push_piece(&mut bytes, piece)?;
    }
    Ok(bytes)
}

fn push_piece(bytes: &mut Vec<u8>, piece: &Piece) -> Result<(), AllocError>
    ensures { OnOk result (bytes.new.items ≡ bytes.old.items ++ piece_bytes piece.now) }
{
    match piece {
        Piece::Plain(text) => {
            bytes.extend_from_slice(text.as_slice())?;
            Ok(())
        }
        Piece::Hex(of) => push_hex(bytes, of.as_slice()),
    }
}

/// The pieces that aren't hex, one after another.
pub(crate) fn join_plain(alloc: Global, pieces: &[Piece]) -> Result<Vec<u8>, AllocError> {
    let mut bytes = Vec::new(alloc);
    for piece in pieces {
        if let Piece::Plain(text) = piece {
            bytes.extend_from_slice(text.as_slice())?;
        }
    }
    Ok(bytes)
}

/// Whether these are as many pieces as the others, each alike.
pub(crate) fn are_alike(pieces: &[Piece], others: &[Piece]) -> bool
    ensures { IsTrue result → joined pieces.now ≡ joined others.now }
{
    let mut rest = others;
    for piece in pieces {
        match rest.split_first() {
            Some((other, later)) if piece.is_alike(other) => rest = later,
            _ => return false,
        }
    }
    rest.is_empty()
}
