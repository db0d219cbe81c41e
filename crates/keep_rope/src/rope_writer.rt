ghost use Rattle.std.specs.Prelude.{◌≡◌, ◌++◌, [], IfOk, OnOk};
ghost use Rattle.hex.specs.Hex.{encode_lower};

use crate::piece::Piece;
use crate::rope::Rope;
use keep_repo::Bytes;
use std::alloc::{AllocError, Global};
use std::marker::Model;
use std::mem;

/// Writes a rope from its beginning on. Contracts see what was written so far.
pub struct RopeWriter {
    alloc: Global,
    /// The pieces that are complete.
    pieces: Vec<Piece>,
    /// What was written behind them.
    plain: Vec<u8>,
}

impl Model for RopeWriter {
    ghost use Rattle.std.specs.Prelude.{ℕ, List, ◌++◌};

    ghost Value = { List ℕ };

    ghost use Rattle.keep_rope.specs.Pieces.{joined};

    ghost view = { λ w. joined w.pieces.items ++ w.plain.items };
}

// One call drops it, where each `?` would else drop each part of it, which is long to prove.
impl Drop for RopeWriter {
    fn drop(self) {
        let RopeWriter {
            alloc: _,
            pieces: _,
            plain: _,
        } = self;
    }
}

impl RopeWriter {
    /// Of nothing yet.
    pub fn new(alloc: Global) -> RopeWriter
        ensures { result ≡ [] }
    {
        RopeWriter {
            alloc,
            pieces: Vec::new(alloc),
            plain: Vec::new(alloc),
        }
    }

    /// Writes bytes as they are.
    pub fn put(&mut self, bytes: &[u8]) -> Result<(), AllocError>
        ensures { OnOk result (self.new ≡ self.old ++ bytes.now) }
    {
        self.plain.extend_from_slice(bytes)?;
        Ok(())
    }

    /// Writes bytes in hex. The bytes are held, and not their hex.
    pub fn put_hex(&mut self, bytes: &Bytes) -> Result<(), AllocError>
        ensures { OnOk result (self.new ≡ self.old ++ encode_lower bytes.now) }
    {
        let mut plain = mem::replace(&mut self.plain, Vec::new(self.alloc));
        plain.shrink_to_fit();
        self.pieces.push(Piece::Plain(plain))?;
        self.pieces.push(Piece::Hex(bytes.clone()?))?;
        Ok(())
    }

    /// What was written. Room that isn't used is given back.
    pub fn finish(self) -> Result<Rope, AllocError>
        ensures { IfOk result (λ rope. rope ≡ self) }
    {
        let RopeWriter {
            alloc,
            mut pieces,
            mut plain,
        } = self;
        plain.shrink_to_fit();
        pieces.push(Piece::Plain(plain))?;
        pieces.shrink_to_fit();
        Rope::of_pieces(alloc, pieces)
    }
}
