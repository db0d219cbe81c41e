ghost use Rattle.std.specs.Prelude.{◌≡◌, ◌<◌, ◌≤◌, Err, IfOk, IfSome, length, vec_len};
ghost use Rattle.keep_bench.specs.declared.input.InputError.TheVariants.{Failed};

use std::alloc::Global;
use std::io::{self, Read};
use thiserror::Error;

/// How many bytes an input has at most.
const MAX_INPUT: usize = 268_435_456;

/// Why an input wasn't read.
#[derive(Debug, Drop, Error)]
pub(crate) enum InputError {
    /// It has more than 268,435,456 bytes.
    #[error("TooLong")]
    TooLong,
    /// The reader failed, or memory ran out.
    #[error(transparent)]
    Failed(io::Error),
}

impl From<io::Error> for InputError {
    ghost from_gives = { λ cause error. error ≡ Failed cause };

    fn from(cause: io::Error) -> InputError {
        InputError::Failed(cause)
    }
}

/// Reads all that the reader has left.
pub(crate) fn read_all<R: Read>(alloc: Global, reader: R) -> Result<Vec<u8>, InputError>
where
    R: Drop,
    ensures all { IfOk result (λ bytes. IfSome (R.remaining reader) (λ left. bytes.items ≡ left)) }
    ensures bounded { IfOk result (λ bytes. vec_len bytes ≤ MAX_INPUT) }
    ensures too_long { result ≡ Err InputError.TooLong
        → IfSome (R.remaining reader) (λ left. MAX_INPUT < length left) }
{
    let mut bytes = Vec::new(alloc);
    let mut reader = reader.take(MAX_INPUT as u64 + 1);
    reader.read_to_end(&mut bytes)?;
    if bytes.len() > MAX_INPUT {
        return Err(InputError::TooLong);
    }
    Ok(bytes)
}
