ghost use Rattle.std.specs.Prelude.{◌≡◌, ◌<◌, ◌≤◌, ◌+◌, ◌++◌, length, take};
ghost use Rattle.std.specs.Vec.{vec_len};

use keep_build::Cut;
use std::alloc::{AllocError, Global};

/// Bytes of a file that are cut into pieces.
#[derive(Drop)]
pub(crate) struct CutBytes {
    pub(crate) cut: Cut,
    /// The pieces that are whole.
    pub(crate) whole: Vec<Vec<u8>>,
    /// The bytes behind these.
    pub(crate) rest: Vec<u8>,
    pub ghost short: { vec_len rest < cut.bytes },
}

impl CutBytes {
    ghost use Rattle.std.specs.Prelude.{[], IfOk};
    ghost use Rattle.keep_archive.specs.Cutting.{CutsOn};

    /// These bytes, which are no whole piece.
    pub(crate) fn of(alloc: Global, cut: Cut, rest: Vec<u8>) -> CutBytes
        requires { vec_len rest < cut.bytes }
        ensures cut { result.cut ≡ cut }
        ensures whole { result.whole.items ≡ [] }
        ensures rest { result.rest ≡ rest }
    {
        CutBytes {
            cut,
            whole: Vec::new(alloc),
            rest,
        }
    }

    /// With more bytes behind them.
    pub(crate) fn with(self, alloc: Global, bytes: &[u8]) -> Result<CutBytes, AllocError>
        ensures { IfOk result (CutsOn bytes.now self) }
    {
        let mut done = self;
        let mut start = 0;
        while start < bytes.len() {
            let front = part_from(bytes, start, done.room());
            done = done.with_front(alloc, front)?;
            start += front.len();
        }
        Ok(done)
    }

    /// How many bytes the next piece lacks.
    fn room(&self) -> usize
        ensures some { 0 < result }
        ensures whole { vec_len self.now.rest + result ≡ self.now.cut.bytes }
    {
        self.cut.piece_length() - self.rest.len()
    }

    /// With as many bytes as the next piece lacks at most.
    fn with_front(self, alloc: Global, bytes: &[u8]) -> Result<CutBytes, AllocError>
        requires { vec_len self.rest + length bytes.now ≤ self.cut.bytes }
        ensures { IfOk result (CutsOn bytes.now self) }
    {
        let CutBytes {
            cut,
            mut whole,
            mut rest,
        } = self;
        rest.extend_from_slice(bytes)?;
        if rest.len() < cut.piece_length() {
            return Ok(CutBytes { cut, whole, rest });
        }
        whole.push(rest)?;
        let rest = Vec::new(alloc);
        Ok(CutBytes { cut, whole, rest })
    }
}

/// As many of the bytes from an index on as there is room for.
#[tactic(auto, using(crate::proofs::Fronts::front_more))]
fn part_from(bytes: &[u8], start: usize, room: usize) -> &[u8]
    requires left { start < length bytes.now }
    requires room { 0 < room }
    ensures some { 0 < length result.now }
    ensures fits { length result.now ≤ room }
    ensures within { start + length result.now ≤ length bytes.now }
    ensures front { take start bytes.now ++ result.now ≡ take (start + length result.now) bytes.now }
{
    let left = bytes.len() - start;
    let count = if left < room { left } else { room };
    &bytes[start..start + count]
}
