use keep_repo::Bytes;

/// A piece of a rope.
#[derive(Drop)]
pub enum Piece {
    /// Bytes as they are.
    Plain(Vec<u8>),
    /// The hex of these bytes: two digits for each, `a` to `f` in lower case.
    Hex(Bytes),
}

impl Piece {
    ghost use Rattle.std.specs.Prelude.{◌≡◌, IsTrue};
    ghost use Rattle.keep_rope.specs.Pieces.{piece_bytes};

    /// Whether the other is of the same sort and has the same bytes.
    pub(crate) fn is_alike(&self, other: &Piece) -> bool
        ensures { IsTrue result → piece_bytes self.now ≡ piece_bytes other.now }
    {
        match (self, other) {
            (Piece::Plain(text), Piece::Plain(others)) => text.as_slice() == others.as_slice(),
            (Piece::Hex(bytes), Piece::Hex(others)) => bytes == others,
            _ => false,
        }
    }
}
