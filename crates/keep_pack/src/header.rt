ghost use Rattle.std.specs.Prelude.{◌≡◌, ◌<◌, ◌^◌, List, length, map, IfOk, IfErr, All};
ghost use Rattle.std.specs.List.{list_any, sum_by};
ghost use Rattle.keep_names.specs.declared.blob.Blob.{Blob};
ghost use Rattle.keep_pack.specs.Pack.{HasHeader, LiesIn, entries_from};
ghost use Rattle.keep_pack.specs.Reading.{Gives, IsSplit, blob_in, header_of, length_in, listed_in, type_of};
ghost use Rattle.keep_pack.specs.Reading as spec;

use crate::pack_error::PackError;
use keep_names::{Blob, BlobId, BlobType, Id};
use std::alloc::Global;

/// An entry as it stands: the type, the length of the blob in four bytes, its id.
type RawEntry = [u8; 37];

/// The entries of a pack's header, in their order. The blobs themselves aren't looked at: an entry's id may
/// be another one than its blob's.
pub fn read_header(alloc: Global, pack: &[u8]) -> Result<Vec<Blob>, PackError>
    // What is read is what the pack's grammar says, and what it says is read.
    ensures found { IfOk result (λ entries. HasHeader pack.now entries.items) }
    ensures only { (entries : List Blob) → HasHeader pack.now entries → Gives result (Ok entries) }

    // Which refusal it is. Want of memory comes after all of them.
    ensures exact { Gives result (header_of pack.now) }

    // Each blob can be had by `blob_at`.
    ensures within { IfOk result (λ entries. All (LiesIn pack.now) entries.items) }
{
    entries_in(alloc, pack)
}

/// The listed entries, or the first refusal. All refusals come before memory is taken.
#[tactic(auto, unfolding(crate::specs::Reading::header_of))]
fn entries_in(alloc: Global, pack: &[u8]) -> Result<Vec<Blob>, PackError>
    ensures { Gives result (header_of pack.now) }
{
    let (blobs, raw) = split_pack(pack)?;
    if has_bad_type(raw) {
        return Err(PackError::BadBlobType);
    }
    if total_length(raw) != blobs.len() as u64 {
        return Err(PackError::LengthsDontFit);
    }
    list_entries(alloc, raw)
}

/// The bytes before the header, and the header's entries.
#[tactic(auto, unfolding(crate::specs::Reading::header_of))]
fn split_pack(pack: &[u8]) -> Result<(&[u8], &[RawEntry]), PackError>
    ensures parts { IfOk result (λ parts. IsSplit pack.now parts.0.now parts.1.now) }
    ensures refused { IfErr result (λ error. header_of pack.now ≡ Err error) }
    ensures few { IfOk result (λ parts. length parts.1.now < 2 ^ 32) }
{
    let Some((before, length)) = pack.split_last_chunk::<4>() else {
        return Err(PackError::ShortPack);
    };
    let length = u32::from_le_bytes(*length) as usize;
    if length % 37 != 0 || length > before.len() {
        return Err(PackError::BadHeaderLength);
    }
    let (blobs, header) = before.split_at(before.len() - length);
    Ok((blobs, header.as_chunks::<37>().0))
}

/// Whether an entry is of no type.
fn has_bad_type(raw: &[RawEntry]) -> bool
    ensures { result ≡ list_any spec.has_bad_type raw.now }
{
    raw.iter().any(|entry| entry[0] > 1)
}

/// How many bytes the listed blobs have together.
fn total_length(raw: &[RawEntry]) -> u64
    requires { length raw.now < 2 ^ 32 }
    ensures { result ≡ sum_by length_in raw.now }
{
    raw.iter().map(|entry| u64::from(length_of(entry))).sum()
}

/// The entries of blobs that lie one after the other from the first byte on.
fn list_entries(alloc: Global, raw: &[RawEntry]) -> Result<Vec<Blob>, PackError>
    requires { sum_by length_in raw.now < 2 ^ 64 }
    ensures { Gives result (Ok (entries_from 0 (map listed_in raw.now))) }
{
    let mut entries = Vec::with_capacity(alloc, raw.len())?;
    let mut offset = 0;
    for entry in raw {
        let length = length_of(entry);
        entries.push(Blob {
            blob: blob_of(entry),
            offset,
            length,
        })?;
        offset += u64::from(length);
    }
    Ok(entries)
}

fn length_of(raw: &RawEntry) -> u32
    ensures { result ≡ length_in raw.now }
{
    u32::from_le_bytes([raw[1], raw[2], raw[3], raw[4]])
}

fn blob_of(raw: &RawEntry) -> BlobId
    ensures { result ≡ blob_in raw.now }
{
    let mut id = [0; 32];
    id.copy_from_slice(&raw[5..]);
    BlobId {
        id: Id(id),
        blob_type: blob_type_of(raw[0]),
    }
}

fn blob_type_of(byte: u8) -> BlobType
    ensures { result ≡ type_of byte }
{
    match byte {
        0 => BlobType::Content,
        _ => BlobType::Tree,
    }
}
