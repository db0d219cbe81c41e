ghost use Rattle.std.specs.Prelude.{◌≡◌, ◌≤◌, OnOk, IfOk};
ghost use Rattle.keep_sources.specs.Limits.{most_held, read_limit};
ghost use Rattle.keep_sources.specs.Took.{CopiedFile};

use crate::receives::{Receives, Stop};
use crate::skipped::Why;
use crate::source::Source;
use crate::taking::Taking;
use std::alloc::AllocError;

/// How many bytes are held at most before more is written.
const MOST_HELD: u64 = 67_108_864;

/// A file that had as many bytes when it was seen is long.
const LONG_FILE: u64 = 2_097_152;

/// How many bytes of a long file are read at once: its pieces can be hashed together.
const LONG_PIECE: usize = 16_777_216;

/// How much of a file was read, and why no more, if it wasn't read out.
#[derive(Clone, Copy)]
pub(crate) struct Copied {
    pub(crate) size: u64,
    pub(crate) failure: Option<Why>,
}

impl<S: Source, A: Receives> Taking<S, A> {
    /// Gives the archive what the open file of this path holds, piece by piece.
    pub(crate) fn copy(&mut self, path: &str, seen: u64) -> Result<Copied, Stop>
        ensures copied { IfOk result (λ copied. CopiedFile S.told A.gives path.now seen
            (A.seen self.old.archive) (A.seen self.new.archive) copied.size copied.failure) }
        ensures skipped { OnOk result (self.new.skipped ≡ self.old.skipped) }
    {
        self.widen(seen)?;
        let limit = limit_of(seen);
        let mut size = 0u64;
        'reading: while size < limit {
            self.make_room()?;
            let piece = self.piece.as_mut_slice();
            match self.source.read(path, size, piece) {
                Ok(0) => return Ok(Copied {
                    size,
                    failure: None,
                }),
                Ok(count) => {
                    self.archive.write(&piece[..count])?;
                    size += count as u64;
                }
                Err(why) => {
                    return Ok(Copied {
                        size,
                        failure: Some(why),
                    });
                }
            }
        }
        Ok(Copied {
            size,
            failure: None,
        })
    }

    /// Has more read at once, from the first long file on.
    fn widen(&mut self, seen: u64) -> Result<(), AllocError>
        ensures archive { self.new.archive ≡ self.old.archive }
        ensures skipped { self.new.skipped ≡ self.old.skipped }
    {
        if seen >= LONG_FILE && self.piece.len() < LONG_PIECE {
            self.piece = vec![in self.alloc; 0; LONG_PIECE]?;
        }
        Ok(())
    }

    /// Has what is held stored where that is more than may be.
    pub(crate) fn make_room(&mut self) -> Result<(), Stop>
        ensures room { OnOk result (A.holds self.new.archive ≤ most_held) }
        ensures same { OnOk result (A.seen self.new.archive ≡ A.seen self.old.archive) }
        ensures skipped { OnOk result (self.new.skipped ≡ self.old.skipped) }
    {
        if self.archive.held() > MOST_HELD {
            self.archive.store_part()?;
        }
        Ok(())
    }
}

/// From how many bytes on a file isn't read further.
fn limit_of(seen: u64) -> u64
    ensures { result ≡ read_limit seen }
{
    seen.min(1 << 62) + (1 << 30)
}
