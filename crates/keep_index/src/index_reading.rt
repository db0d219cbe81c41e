ghost use Rattle.std.specs.Prelude.{◌≡◌, map, ok_or};
ghost use Rattle.serde_json.specs.View.{view};
ghost use Rattle.keep_docs.specs.Doc.{Answers};
ghost use Rattle.keep_docs.specs.Lists.{each};
ghost use Rattle.keep_docs.specs.declared.doc.DocError.TheVariants.{Memory};
ghost use Rattle.keep_index.specs.Index.{index_view, pack_view};
ghost use Rattle.keep_index.specs.Reading.{index_of, type_named};
ghost use Rattle.keep_index.specs.Reading as spec;
ghost use Rattle.keep_index.specs.declared.index_error.IndexError.TheVariants.{BadIndex, Doc};

use crate::index::{Index, IndexedPack};
use crate::index_error::IndexError;
use keep_docs::{id_at, list_or_null_at, read_doc, str_at, u32_at, u64_at};
use keep_names::{Blob, BlobId, BlobType};
use serde_json::Value;
use std::alloc::Global;

/// Reads an index. Other keys, `supersedes` too, are read past.
pub fn read_index(alloc: Global, bytes: &[u8]) -> Result<Index, IndexError>
    ensures { Answers (Doc Memory) index_view (index_of bytes.now) result }
{
    let value = read_doc(alloc, bytes)?;
    index_in(alloc, &value)
}

/// The index that a document holds.
fn index_in(alloc: Global, value: &Value) -> Result<Index, IndexError>
    ensures { Answers (Doc Memory) index_view (ok_or (spec.index_in (view value.now)) BadIndex) result }
{
    if !value.is_object() {
        return Err(IndexError::BadIndex);
    }
    let values = list_or_null_at(value, "packs").ok_or(IndexError::BadIndex)?;
    let packs = packs_in(alloc, values)?;
    Ok(Index { packs })
}

/// The packs that a list holds.
fn packs_in(alloc: Global, values: &[Value]) -> Result<Vec<IndexedPack>, IndexError>
    ensures { Answers (Doc Memory) (λ packs. map pack_view packs.items)
        (ok_or (each spec.pack_in (map view values.now)) BadIndex) result }
{
    let mut packs = Vec::with_capacity(alloc, values.len())?;
    for value in values {
        packs.push(pack_in(alloc, value)?)?;
    }
    Ok(packs)
}

/// The pack that an object holds.
fn pack_in(alloc: Global, value: &Value) -> Result<IndexedPack, IndexError>
    ensures { Answers (Doc Memory) pack_view (ok_or (spec.pack_in (view value.now)) BadIndex) result }
{
    let id = id_at(value, "id").ok_or(IndexError::BadIndex)?;
    let values = list_or_null_at(value, "blobs").ok_or(IndexError::BadIndex)?;
    let blobs = blobs_in(alloc, values)?;
    Ok(IndexedPack { id, blobs })
}

/// The blobs that a list holds.
fn blobs_in(alloc: Global, values: &[Value]) -> Result<Vec<Blob>, IndexError>
    ensures { Answers (Doc Memory) (λ blobs. blobs.items)
        (ok_or (each spec.blob_in (map view values.now)) BadIndex) result }
{
    let mut blobs = Vec::with_capacity(alloc, values.len())?;
    for value in values {
        let blob = blob_in(value).ok_or(IndexError::BadIndex)?;
        blobs.push(blob)?;
    }
    Ok(blobs)
}

/// The blob that an object holds.
fn blob_in(value: &Value) -> Option<Blob>
    ensures { result ≡ spec.blob_in (view value.now) }
{
    let id = id_at(value, "id")?;
    let blob_type = blob_type_of(str_at(value, "type")?)?;
    let offset = u64_at(value, "offset")?;
    let length = u32_at(value, "length")?;
    let blob = BlobId { id, blob_type };
    Some(Blob {
        blob,
        offset,
        length,
    })
}

/// The type of blobs that a word names.
fn blob_type_of(word: &str) -> Option<BlobType>
    ensures { result ≡ type_named word.now }
{
    match word {
        "data" => Some(BlobType::Content),
        "tree" => Some(BlobType::Tree),
        _ => None,
    }
}
