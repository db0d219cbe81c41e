ghost use Rattle.std.specs.Prelude.{◌≡◌, [], ◌++◌, ◌∷◌, ◌<◌, ◌≤◌, ◌-◌, ◌*◌, ◌^◌, List, drop, length, map, take, IfOk, OnOk};
ghost use Rattle.keep_index.specs.Index.{pack_view};
ghost use Rattle.keep_names.specs.Sha256.{sha256};
ghost use Rattle.keep_pack.specs.Pack.{entries_from, listing};
ghost use Rattle.keep_build.specs.Blobs.{BlobData};
ghost use Rattle.keep_build.specs.NewPacks.{new_pack_of, new_pack_view};
ghost use Rattle.keep_build.specs.Packs.{bytes_in, full_pack, packs_of};
ghost use Rattle.keep_build.specs.Stored.{pack_file, pack_listed, packs_and_index};
ghost use Rattle.keep_build.specs.Storing.{CanBePacked, blob_view, text_bytes};

use crate::storing::{NewBlob, Text};
use keep_catalog::Hashing;
use keep_change::StoredFile;
use keep_index::{Index, IndexedPack, write_index};
use keep_names::{Blob, Id, Kind};
use keep_pack::build_pack;
use std::alloc::{AllocError, Global};

/// A pack with as many bytes of blobs gets no more.
const FULL_PACK: usize = 16_777_216;

/// A pack that has no name yet, and what its header says.
#[derive(Drop)]
pub(crate) struct NewPack {
    pub(crate) bytes: Vec<u8>,
    pub(crate) blobs: Vec<Blob>,
}

/// Packs, and what their index says of them.
#[derive(Drop)]
struct Built {
    files: Vec<StoredFile>,
    listed: Vec<IndexedPack>,
}

/// The packs of new blobs, pieces before trees, and their index. Packs are hashed together.
pub(crate) fn built_files<H: Hashing>(
    alloc: Global,
    pieces: &[NewBlob],
    trees: &[NewBlob],
    hashing: &mut H,
) -> Result<Vec<StoredFile>, AllocError>
    requires pieces { CanBePacked pieces.now }
    requires trees { CanBePacked trees.now }
    ensures { IfOk result (λ files. files.items ≡ packs_and_index
        (packs_of (map blob_view pieces.now) ++ packs_of (map blob_view trees.now))) }
{
    let mut packs = Vec::new(alloc);
    add_packs(alloc, &mut packs, pieces)?;
    add_packs(alloc, &mut packs, trees)?;
    let built = named_packs(alloc, packs, hashing)?;
    add_index(alloc, built)
}

/// Adds the packs of these blobs.
fn add_packs(alloc: Global, packs: &mut Vec<NewPack>, blobs: &[NewBlob]) -> Result<(), AllocError>
    requires { CanBePacked blobs.now }
    ensures { OnOk result (map new_pack_view packs.new.items
        ≡ map new_pack_view packs.old.items ++ map new_pack_of (packs_of (map blob_view blobs.now))) }
{
    let mut start = 0;
    while start < blobs.len() {
        let rest = &blobs[start..];
        let count = first_pack(rest);
        add_pack(alloc, packs, &rest[..count])?;
        start += count;
    }
    Ok(())
}

/// How many of the blobs the first pack has.
fn first_pack(blobs: &[NewBlob]) -> usize
    requires some { 0 < length blobs.now }
    requires fits { CanBePacked blobs.now }
    ensures some { 0 < result }
    ensures within { result ≤ length blobs.now }
    ensures first { packs_of (map blob_view blobs.now)
        ≡ map blob_view (take result blobs.now) ∷ packs_of (map blob_view (drop result blobs.now)) }
    ensures front { bytes_in (map blob_view (take (result - 1) blobs.now)) < full_pack }
{
    let mut size = 0;
    for (place, (_, bytes)) in blobs.iter().enumerate() {
        size += blob_length(bytes) as usize;
        if size >= FULL_PACK {
            return place + 1;
        }
    }
    blobs.len()
}

/// Adds the pack of these blobs.
fn add_pack(alloc: Global, packs: &mut Vec<NewPack>, blobs: &[NewBlob]) -> Result<(), AllocError>
    requires fits { CanBePacked blobs.now }
    requires some { 0 < length blobs.now }
    requires front { bytes_in (map blob_view (take (length blobs.now - 1) blobs.now)) < full_pack }
    ensures { OnOk result (map new_pack_view packs.new.items
        ≡ map new_pack_view packs.old.items ++ new_pack_of (map blob_view blobs.now) ∷ []) }
{
    let bytes = build_pack(alloc, blobs)?;
    let blobs = listed_blobs(alloc, blobs)?;
    packs.push(NewPack { bytes, blobs })?;
    Ok(())
}

/// The packs under their names, and what their index says of them.
fn named_packs<H: Hashing>(
    alloc: Global,
    packs: Vec<NewPack>,
    hashing: &mut H,
) -> Result<Built, AllocError>
    ensures files { IfOk result (λ built. (of : List (List BlobData)) → map new_pack_view packs.items ≡ map new_pack_of of
        → built.files.items ≡ map pack_file of) }
    ensures listed { IfOk result (λ built. (of : List (List BlobData)) → map new_pack_view packs.items ≡ map new_pack_of of
        → map pack_view built.listed.items ≡ map pack_listed of) }
{
    let ids = ids_of(alloc, &packs, hashing)?;
    let mut built = Built {
        files: Vec::new(alloc),
        listed: Vec::new(alloc),
    };
    for (pack, id) in packs.into_iter().zip(ids) {
        let NewPack { bytes, blobs } = pack;
        built.listed.push(IndexedPack { id, blobs })?;
        let file = StoredFile::hashed(alloc, Kind::Pack, id, bytes)?;
        built.files.push(file)?;
    }
    Ok(built)
}

/// The SHA-256 of each pack.
fn ids_of<H: Hashing>(
    alloc: Global,
    packs: &[NewPack],
    hashing: &mut H,
) -> Result<Vec<Id>, AllocError>
    ensures { IfOk result (λ ids. map (λ id. id.0) ids.items ≡ map (λ pack. sha256 pack.bytes.items) packs.now) }
{
    let mut texts: Vec<&[u8]> = Vec::new(alloc);
    for pack in packs {
        texts.push(pack.bytes.as_slice())?;
    }
    hashing.ids(alloc, &texts)
}

/// What an index says of the blobs of a pack, which lie one after the other.
fn listed_blobs(alloc: Global, blobs: &[NewBlob]) -> Result<Vec<Blob>, AllocError>
    requires fits { CanBePacked blobs.now }
    requires count { 37 * length blobs.now < 2 ^ 32 }
    ensures { IfOk result (λ listed. listed.items
        ≡ entries_from 0 (map listing (map blob_view blobs.now))) }
{
    let mut listed = Vec::new(alloc);
    let mut offset = 0;
    for (blob, bytes) in blobs {
        let length = blob_length(bytes);
        listed.push(Blob {
            blob: *blob,
            offset,
            length,
        })?;
        offset += length as u64;
    }
    Ok(listed)
}

/// How long a blob is.
fn blob_length(bytes: &Text) -> u32
    requires { length (text_bytes bytes.now) < 2 ^ 32 }
    ensures { result ≡ length (text_bytes bytes.now) }
{
    bytes.len() as u32
}

/// Adds the index of the packs, if there are packs.
fn add_index(alloc: Global, built: Built) -> Result<Vec<StoredFile>, AllocError>
    ensures { IfOk result (λ files. (packs : List (List BlobData)) → built.files.items ≡ map pack_file packs
        → map pack_view built.listed.items ≡ map pack_listed packs → files.items ≡ packs_and_index packs) }
{
    let Built { mut files, listed } = built;
    if listed.is_empty() {
        return Ok(files);
    }
    let text = write_index(alloc, &Index { packs: listed })?;
    let file = StoredFile::of(alloc, Kind::Index, text)?;
    files.push(file)?;
    Ok(files)
}
