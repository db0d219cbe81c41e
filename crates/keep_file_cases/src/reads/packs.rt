ghost use Rattle.std.specs.Prelude.{◌≡◌, ◌<◌, ◌^◌, IfOk, length};
ghost use Rattle.keep_names.specs.Sha256.{sha256};

use crate::case_words::{bytes_in, words_in};
use crate::no_answer::No;
use keep_names::{Blob, BlobId, BlobType, id_of};
use keep_pack::{blob_at, build_pack, read_header};
use std::alloc::Global;

/// How many blobs the pack has, and of each its type, id, offset, length and bytes.
pub(crate) fn pack(alloc: Global, bytes: &[u8]) -> Result<String, No> {
    let blobs = read_header(alloc, bytes)?;
    let mut told = format!(in alloc; "blobs {}", blobs.len())?;
    for blob in &blobs {
        let entry = entry(alloc, blob, blob_at(bytes, blob))?;
        told.push_str(entry.as_str())?;
    }
    Ok(told)
}

fn entry(alloc: Global, entry: &Blob, bytes: &[u8]) -> Result<String, No> {
    let word = match entry.blob.blob_type {
        BlobType::Content => "data",
        BlobType::Tree => "tree",
    };
    let digits = hex::encode(alloc, bytes)?;
    Ok(format!(in alloc;
        " {word} {} {} {} {digits}",
        entry.blob.id, entry.offset, entry.length
    )?)
}

/// The pack of no blob, one or two, each by its type and its bytes.
pub(crate) fn build(alloc: Global, text: &str) -> Result<String, No> {
    let words = words_in(alloc, text)?;
    let pack = match words.as_slice() {
        [""] => {
            let none: [(BlobId, Vec<u8>); 0] = [];
            build_pack(alloc, &none)?
        }
        [kind, digits] => build_pack(alloc, &[blob(alloc, kind, digits)?])?,
        [kind, digits, other_kind, other_digits] => {
            let first = blob(alloc, kind, digits)?;
            let second = blob(alloc, other_kind, other_digits)?;
            build_pack(alloc, &[first, second])?
        }
        _ => return Err(No::Case),
    };
    Ok(hex::encode(alloc, pack)?)
}

/// A blob of at most 1,000 bytes under its name.
fn blob(alloc: Global, kind: &str, digits: &str) -> Result<(BlobId, Vec<u8>), No>
    ensures id { IfOk result (λ made. made.0.id.0 ≡ sha256 made.1.items) }
    ensures short { IfOk result (λ made. length made.1.items < 2 ^ 32) }
{
    let bytes = bytes_in(alloc, digits)?;
    if bytes.len() > 1000 {
        return Err(No::Case);
    }
    let id = id_of(&bytes);
    let blob = match kind {
        "data" => BlobId::content(id),
        "tree" => BlobId::tree(id),
        _ => return Err(No::Case),
    };
    Ok((blob, bytes))
}
