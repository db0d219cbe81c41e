ghost use Rattle.std.specs.Prelude.{◌≡◌, IfErr};
ghost use Rattle.std.specs.Io.KnownBytes.{Keeps};

use crate::status::Stop;
use std::io::Write;

/// Hands on what the writer keeps back.
pub(crate) fn flush<W: Write>(writer: &mut W) -> Result<(), Stop>
    ensures kept { Keeps (W.contents writer.old) (W.contents writer.new) }
    ensures reason { IfErr result (λ stop. stop ≡ Stop.WriteFailed) }
{
    match writer.flush() {
        Ok(()) => Ok(()),
        Err(_) => Err(Stop::WriteFailed),
    }
}
