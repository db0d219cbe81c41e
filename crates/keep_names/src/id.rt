ghost use Rattle.std.specs.Prelude.{◌≡◌, ◌↔◌, IfOk, IsOk, string_bytes};
ghost use Rattle.sha2.specs.Sha256.{sha256};
ghost use Rattle.keep_names.specs.Id.{IsDigest, IsIdText, id_text};
ghost use Rattle.keep_names.specs.declared.id.Id.{Id};

use crate::hex_digit::decode_into;
use sha2::{Digest, Sha256};
use std::alloc::{AllocError, Global};
use std::{fmt, str};

/// A SHA-256 digest, by which a file or a blob is named.
#[derive(Clone, Copy, Debug, PartialEq, Eq, PartialOrd, Ord, Hash)]
pub struct Id(pub [u8; 32]);

/// The text is not 64 lower case hex digits.
#[derive(Clone, Copy, Debug, PartialEq, Eq)]
pub struct BadId;

/// The name of these bytes, their SHA-256 (FIPS 180-4).
pub fn id_of(bytes: &[u8]) -> Id
    ensures { result.0 ≡ sha256 bytes.now }
{
    Id(Sha256::digest(bytes))
}

/// The id that this text prints. Upper case digits are refused, so each id has one text.
#[tactic(auto, using(crate::proofs::IdText::reading))]
pub fn parse_id(text: &str) -> Result<Id, BadId>
    ensures accepted { IsOk result ↔ IsIdText text.now }
    ensures value { IfOk result (λ id. id_text id ≡ text.now) }
    ensures printed { (id : Id) → IsDigest id → id_text id ≡ text.now → result ≡ Ok id }
{
    if text.len() != 64 {
        return Err(BadId);
    }
    let mut digest = [0u8; 32];
    if !decode_into(text.as_bytes(), &mut digest) {
        return Err(BadId);
    }
    Ok(Id(digest))
}

/// The id in 64 lower case hex digits.
pub fn print_id(alloc: Global, id: Id) -> Result<String, AllocError>
    ensures { IfOk result (λ text. string_bytes text ≡ id_text id) }
{
    hex::encode(alloc, id.0)
}

/// Ids of one text are one, so a text of 64 lower case hex digits names just one id.
pub fn text_names_id(first: Id, second: Id)
    ensures digest { IsDigest first }
    ensures digits { IsIdText (id_text first) }
    ensures exact { id_text first ≡ id_text second → first ≡ second }
{}

impl fmt::Display for Id {
    ghost use Rattle.std.specs.Prelude.{Some};

    ghost output = { λ id. Some (id_text id) };

    fn fmt<W: fmt::Write>(&self, f: &mut fmt::Formatter<W>) -> fmt::Result {
        let mut digits = [0u8; 64];
        hex::encode_to_slice(self.0, &mut digits).map_err(|_| fmt::Error)?;
        f.write_str(str::from_utf8(&digits).map_err(|_| fmt::Error)?)
    }
}
