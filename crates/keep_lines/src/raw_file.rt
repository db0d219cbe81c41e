ghost use Rattle.std.specs.Prelude.{IfOk};
ghost use Rattle.keep_names.specs.Parses.{Parses};
ghost use Rattle.keep_lines.specs.RawFile.{IsRawFile, raw_file_text};

use crate::word::{MeantFile, parse_hex, parse_target};
use keep_names::{Kind, parse_kind};
use std::alloc::{AllocError, Global};

/// A file that a line adds or drops by itself, whatever is in it.
#[derive(Drop)]
pub enum RawFile {
    Add { kind: Kind, bytes: Vec<u8> },
    Drop { kind: Kind, target: MeantFile },
}

/// The file that the line adds or drops.
pub(crate) fn parse_raw_file(alloc: Global, text: &str) -> Result<Option<RawFile>, AllocError>
    ensures { IfOk result (Parses IsRawFile raw_file_text text.now) }
{
    let Some((verb, rest)) = text.split_once(' ') else {
        return Ok(None);
    };
    let Some((word, value)) = rest.split_once(' ') else {
        return Ok(None);
    };
    let Some(kind) = parse_kind(word) else {
        return Ok(None);
    };
    match verb {
        "add" => match parse_hex(alloc, value)? {
            Some(bytes) => Ok(Some(RawFile::Add { kind, bytes })),
            None => Ok(None),
        },
        "drop" => match parse_target(value) {
            Some(target) => Ok(Some(RawFile::Drop { kind, target })),
            None => Ok(None),
        },
        _ => Ok(None),
    }
}
