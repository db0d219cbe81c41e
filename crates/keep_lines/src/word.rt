ghost use Rattle.std.specs.Prelude.{◌≡◌, ◌↔◌, IfOk, IsTrue, string_bytes};
ghost use Rattle.std.specs.List.{AllPass};
ghost use Rattle.keep_names.specs.Parses.{Parses};
ghost use Rattle.keep_lines.specs.Word.{AreBytes, IsName, IsTarget, hex_text, hex_word, is_name_byte, target_text};

use keep_names::{Id, decode_hex, parse_id, parse_number};
use std::alloc::{AllocError, Global};

/// Which file a line means: one by its name, or the one that a change added.
#[derive(Clone, Copy, PartialEq, Eq)]
pub enum MeantFile {
    Named(Id),
    AddedBy(u64),
}

const MAX_NAME: usize = 64;

/// Whether the word can name a note: 1 to 64 ASCII letters, digits or dashes.
pub(crate) fn is_name(word: &str) -> bool
    ensures { IsTrue result ↔ IsName word.now }
{
    let fits = word.len() <= MAX_NAME;
    !word.is_empty() && fits && has_name_bytes(word)
}

fn has_name_bytes(word: &str) -> bool
    ensures { IsTrue result ↔ AllPass is_name_byte word.now }
{
    word.bytes().all(|byte| matches!(byte, b'0'..=b'9' | b'A'..=b'Z' | b'a'..=b'z' | b'-'))
}

/// The bytes that the word writes in lower case hex, or as a dash where there are none.
pub(crate) fn parse_hex(alloc: Global, word: &str) -> Result<Option<Vec<u8>>, AllocError>
    ensures { IfOk result (Parses AreBytes hex_word word.now) }
{
    if word == "-" {
        return Ok(Some(Vec::new(alloc)));
    }
    if word.is_empty() {
        return Ok(None);
    }
    decode_hex(alloc, word)
}

/// The bytes in lower case hex, or a dash where there are none.
pub fn print_hex(alloc: Global, bytes: &[u8]) -> Result<String, AllocError>
    ensures { IfOk result (λ text. string_bytes text ≡ hex_text bytes.now) }
{
    if bytes.is_empty() {
        return String::from_str(alloc, "-");
    }
    hex::encode(alloc, bytes)
}

/// A file by its 64 digits, or `@` and the number of the change that added it.
pub(crate) fn parse_target(word: &str) -> Option<MeantFile>
    ensures { Parses IsTarget target_text word.now result }
{
    match word.strip_prefix('@') {
        Some(number) => {
            let number = parse_number(number)?;
            Some(MeantFile::AddedBy(number))
        }
        None => {
            let id = parse_id(word).ok()?;
            Some(MeantFile::Named(id))
        }
    }
}
