ghost use Rattle.std.specs.Prelude.{◌≡◌, ◌≢◌, Err, IfErr, IfSome};
ghost use Rattle.keep_answers.specs.Known.{Puts, WritesLines};
ghost use Rattle.keep_answers.specs.Known.{line};

use crate::halt::Halt;
use std::alloc::Global;
use std::fmt::Display;
use std::io::{ErrorKind, Write};

/// Room for most answers.
const ROOM: usize = 64;

/// Writes what the answer prints as a line: the whole line is made before any of it is written.
pub fn put_line<T: Display, W: Write>(alloc: Global, answer: &T, writer: &mut W) -> Result<(), Halt>
    ensures puts { IfSome (T.output answer.now) (λ text.
        Puts (W.contents writer.old) (W.contents writer.new) (line text) result) }
    ensures whole { IfSome (T.output answer.now) (λ _.
        result ≢ Err Halt.WriteFailed → WritesLines (W.contents writer.old) (W.contents writer.new)) }
{
    let mut text = String::with_capacity(alloc, ROOM)?;
    writeln!(text, "{answer}")?;
    put(writer, text.as_str().as_bytes())
}

/// Writes all of the bytes.
fn put<W: Write>(writer: &mut W, bytes: &[u8]) -> Result<(), Halt>
    ensures puts { Puts (W.contents writer.old) (W.contents writer.new) bytes.now result }
    ensures reason { IfErr result (λ stop. stop ≡ Halt.WriteFailed) }
{
    let mut rest = bytes;
    for _ in 0..u64::MAX {
        if rest.is_empty() {
            return Ok(());
        }
        match writer.write(rest) {
            Ok(0) => return Err(Halt::WriteFailed),
            Ok(count) => rest = &rest[count..],
            Err(error) => {
                if error.kind() != ErrorKind::Interrupted {
                    return Err(Halt::WriteFailed);
                }
            }
        }
    }
    Err(Halt::WriteFailed)
}
