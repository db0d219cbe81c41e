ghost use Rattle.std.specs.Prelude.{◌≡◌, IfOk, IfSome, IsTrue};

use crate::joining::{are_alike, join, join_plain};
use crate::piece::Piece;
use keep_repo::Bytes;
use std::alloc::{AllocError, Global};
use std::marker::Model;
use std::sync::Arc;

/// Bytes that are shared by all that hold them, whole or in pieces. Contracts see the bytes.
///
/// An entry of a journal has files in hex that the shelf has too: as a rope it takes no memory for them.
pub struct Rope {
    held: Held,
}

/// How the bytes of a rope are held.
#[derive(Drop)]
pub(crate) enum Held {
    Whole(Bytes),
    InPieces(Arc<Vec<Piece>>),
}

impl Model for Rope {
    ghost use Rattle.std.specs.Prelude.{ℕ, List};

    ghost Value = { List ℕ };

    ghost use Rattle.keep_rope.specs.Pieces.{held_bytes};

    ghost view = { λ r. held_bytes r.held };
}

// One call drops it, which is shorter to prove than a drop of each part.
impl Drop for Rope {
    fn drop(self) {
        let Rope { held: _ } = self;
    }
}

impl Rope {
    ghost use Rattle.keep_rope.specs.Pieces.{joined};

    /// The bytes in one piece.
    pub fn of(bytes: Bytes) -> Rope
        ensures { result ≡ bytes }
    {
        Rope {
            held: Held::Whole(bytes),
        }
    }

    /// The bytes of these pieces.
    pub(crate) fn of_pieces(alloc: Global, pieces: Vec<Piece>) -> Result<Rope, AllocError>
        ensures { IfOk result (λ rope. rope ≡ joined pieces.items) }
    {
        Ok(Rope {
            held: Held::InPieces(Arc::new(alloc, pieces)?),
        })
    }

    /// Its pieces, if it isn't held whole.
    pub fn pieces(&self) -> Option<&[Piece]>
        ensures { IfSome result (λ pieces. self.now ≡ joined pieces.now) }
    {
        match &self.held {
            Held::Whole(_) => None,
            Held::InPieces(pieces) => Some(pieces.as_slice()),
        }
    }

    /// The bytes, shared where they are held whole, and else made of the pieces.
    pub fn bytes(&self, alloc: Global) -> Result<Bytes, AllocError>
        ensures { IfOk result (λ bytes. bytes ≡ self.now) }
    {
        match &self.held {
            Held::Whole(bytes) => Ok(bytes.clone()?),
            Held::InPieces(pieces) => {
                let text = join(alloc, pieces.as_slice())?;
                Ok(Bytes::new(alloc, text)?)
            }
        }
    }

    /// What is held as it is: all, or the pieces that aren't hex.
    pub fn plain(&self, alloc: Global) -> Result<Bytes, AllocError> {
        match &self.held {
            Held::Whole(bytes) => Ok(bytes.clone()?),
            Held::InPieces(pieces) => {
                let text = join_plain(alloc, pieces.as_slice())?;
                Ok(Bytes::new(alloc, text)?)
            }
        }
    }

    /// Whether both have the same pieces. Where they don't they may still have the same bytes.
    pub fn has_pieces_of(&self, other: &Rope) -> bool
        ensures { IsTrue result → self.now ≡ other.now }
    {
        match (&self.held, &other.held) {
            (Held::InPieces(pieces), Held::InPieces(others)) => {
                are_alike(pieces.as_slice(), others.as_slice())
            }
            _ => false,
        }
    }
}

/// Another holder of the same bytes. None are copied.
impl Clone for Rope {
    ghost is_clone = { λ source made. made ≡ source };

    fn clone(&self) -> Result<Rope, AllocError> {
        let held = match &self.held {
            Held::Whole(bytes) => Held::Whole(bytes.clone()?),
            Held::InPieces(pieces) => Held::InPieces(pieces.clone()?),
        };
        Ok(Rope { held })
    }
}
