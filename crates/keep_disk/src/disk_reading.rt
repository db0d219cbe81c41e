ghost use Rattle.std.specs.Io.KnownBytes.{Consumes, IsAtEnd};
ghost use Rattle.std.specs.IoError.{error_kind};
ghost use Rattle.std.specs.Prelude.{◌≡◌, ◌≢◌, ◌<◌, [], IfErr, IfOk, OnOk, length};

use std::alloc::Global;
use std::fs::{File, Files};
use std::io::{ErrorKind, Read};
use std::{fs, io};

/// How often at most a file is read, or a folder looked for. What takes longer is given up.
pub(crate) const MAX_TURNS: u32 = 67_108_864;

/// How many bytes are read at once.
pub(crate) const PIECE: usize = 65_536;

/// The bytes of the file of this path, in the memory of those that are given. A link in its place is refused, and so is all
/// that isn't a file, before it is opened: to open a pipe would be to wait for whoever writes into it.
pub(crate) fn read_file<R: Files<File = File> + Alloc<A = Global>>(
    rt: &R,
    path: &str,
    room: Vec<u8>,
    piece: &mut [u8],
) -> io::Result<Vec<u8>> {
    require_file(rt, path)?;
    let mut file = File::open(rt, path)?;
    let length = usize::try_from(file.metadata()?.len()).unwrap_or(0);
    let mut room = room;
    room.clear();
    room.reserve_exact(length)?;
    read_rest(&mut file, room, piece)
}

/// All that the reader has left, piece by piece, in this room. A read that was interrupted is made again.
fn read_rest<F: Read>(reader: &mut F, room: Vec<u8>, piece: &mut [u8]) -> io::Result<Vec<u8>>
    requires empty { room.items ≡ [] }
    ensures all { IfOk result (λ bytes. Consumes (F.remaining reader.old) (F.remaining reader.new) bytes.items) }
    ensures end { 0 < length piece.old → OnOk result (IsAtEnd (F.remaining reader.new)) }
    ensures retried { IfErr result (λ error. error_kind error ≢ ErrorKind.Interrupted) }
{
    let mut bytes = room;
    for _ in 0..MAX_TURNS {
        match reader.read(piece) {
            Ok(0) => return Ok(bytes),
            Ok(count) => bytes.extend_from_slice(&piece[..count])?,
            Err(error) if error.kind() == ErrorKind::Interrupted => {}
            Err(error) => return Err(error),
        }
    }
    Err(io::Error::from(ErrorKind::TimedOut))
}

/// Refuses what isn't a file, also a link to one.
pub(crate) fn require_file<R: Files>(rt: &R, path: &str) -> io::Result<()> {
    if fs::symlink_metadata(rt, path)?.is_file() {
        Ok(())
    } else {
        Err(io::Error::from(ErrorKind::InvalidInput))
    }
}
