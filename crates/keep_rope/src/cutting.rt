ghost use Rattle.std.specs.Prelude.{◌≡◌, ◌++◌, ◌<◌, ◌≤◌, IfOk, IfSome, length};

use crate::in_hex::is_hex_of;
use crate::rope::Rope;
use crate::rope_writer::RopeWriter;
use keep_names::{FileName, parse_id, parse_kind};
use keep_repo::{Bytes, Repo};
use memchr::{memchr, memmem};
use std::alloc::{AllocError, Global};
use std::str;

/// What stands before the hex of a file's bytes.
const BEFORE_HEX: &[u8] = b"\"bytes\":\"";

/// What stands between that hex and the file's name.
const BEFORE_NAME: &[u8] = b"\",\"file\":\"";

impl Rope {
    /// The text of an entry. The hex of files that are held under their names isn't held; of another text, some of it
    /// may not be either.
    pub fn cut(alloc: Global, text: &[u8], held: &Repo) -> Result<Rope, AllocError>
        ensures { IfOk result (λ rope. rope ≡ text.now) }
    {
        let mut out = RopeWriter::new(alloc);
        let mut rest = text;
        while let Some(at) = hex_start(rest) {
            let (before, later) = rest.split_at(at);
            out.put(before)?;
            rest = put_value(&mut out, later, held)?;
        }
        out.put(rest)?;
        out.finish()
    }
}

/// Where the hex of the first file begins.
fn hex_start(text: &[u8]) -> Option<usize>
    ensures some { IfSome result (λ at. 0 < at) }
    ensures within { IfSome result (λ at. at ≤ length text.now) }
{
    let at = memmem::find(text, BEFORE_HEX)?;
    Some(at + BEFORE_HEX.len())
}

/// Writes what stands before the first quote, and answers the rest.
fn put_value<'a>(out: &mut RopeWriter, text: &'a [u8], held: &Repo) -> Result<&'a [u8], AllocError>
    ensures written { IfOk result (λ rest. out.new ++ rest.now ≡ out.old ++ text.now) }
    ensures shorter { IfOk result (λ rest. length rest.now ≤ length text.now) }
{
    let (value, rest) = text.split_at(to_quote(text));
    match named_behind(rest, held) {
        Some(bytes) if is_hex_of(value, bytes.as_slice()) => out.put_hex(bytes)?,
        _ => out.put(value)?,
    }
    Ok(rest)
}

/// How much stands before the first quote.
fn to_quote(text: &[u8]) -> usize
    ensures { result ≤ length text.now }
{
    match memchr(b'"', text) {
        Some(at) => at,
        None => text.len(),
    }
}

/// The bytes that are held under the name behind a file's hex.
fn named_behind<'a>(text: &[u8], held: &'a Repo) -> Option<&'a Bytes> {
    let text = text.strip_prefix(BEFORE_NAME)?;
    let (name, _) = text.split_at(to_quote(text));
    held.get(name_of(name)?)
}

/// The name that a text says.
fn name_of(text: &[u8]) -> Option<FileName> {
    let (kind, id) = str::from_utf8(text).ok()?.split_once('/')?;
    let kind = parse_kind(kind)?;
    let id = parse_id(id).ok()?;
    Some(FileName { kind, id })
}
