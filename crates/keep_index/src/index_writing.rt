ghost use Rattle.std.specs.Prelude.{◌≡◌, ℕ, List, Ok, IfOk, map};
ghost use Rattle.std.specs.List.{AllByRecursion};
ghost use Rattle.serde_json.specs.View.{view};
ghost use Rattle.keep_names.specs.Id.{IsDigest};
ghost use Rattle.keep_docs.specs.Lists.{list_data};
ghost use Rattle.keep_index.specs.Index.{Fits, FitsBlob, FitsPack, PackData, index_view, pack_view};
ghost use Rattle.keep_index.specs.Reading.{index_of};
ghost use Rattle.keep_index.specs.Writing.{blob_data, index_data, index_text, pack_data};
ghost use Rattle.keep_index.specs.Writing as spec;

use crate::index::{Index, IndexedPack};
use keep_docs::{id_value, write_doc};
use keep_names::{Blob, BlobType, Id};
use serde_json::{Value, json};
use std::alloc::{AllocError, Global};

/// The text of an index, its packs and their blobs in the order given.
pub fn write_index(alloc: Global, index: &Index) -> Result<Vec<u8>, AllocError>
    ensures text { IfOk result (λ bytes. bytes.items ≡ index_text (index_view index.now)) }
    ensures reads_back { IfOk result (λ bytes. index_of bytes.items ≡ Ok (index_view index.now)) }
{
    let value = index_value(alloc, index)?;
    write_doc(alloc, &value)
}

/// An index as a value.
fn index_value(alloc: Global, index: &Index) -> Result<Value, AllocError>
    ensures value { IfOk result (λ value. view value ≡ index_data (index_view index.now)) }
    ensures fits { IfOk result (λ _. Fits (index_view index.now)) }
{
    let packs = packs_value(alloc, &index.packs)?;
    json!(in alloc; {"packs": packs})
}

/// Packs as a value.
fn packs_value(alloc: Global, packs: &[IndexedPack]) -> Result<Value, AllocError>
    ensures value { IfOk result (λ value. view value ≡ list_data (map pack_data (map pack_view packs.now))) }
    ensures fits { IfOk result (λ _. Fits (map pack_view packs.now)) }
{
    let mut values = Vec::with_capacity(alloc, packs.len())?;
    for pack in packs {
        values.push(pack_value(alloc, pack.id, &pack.blobs)?)?;
    }
    Ok(Value::Array(values))
}

/// A pack as a value.
fn pack_value(alloc: Global, id: Id, blobs: &[Blob]) -> Result<Value, AllocError>
    ensures value { IfOk result (λ value. view value ≡ pack_data (record { id = id; blobs = blobs.now })) }
    ensures fits { IfOk result (λ _. FitsPack (record { id = id; blobs = blobs.now })) }
{
    id_fits(id);
    let blobs = blobs_value(alloc, blobs)?;
    let id = id_value(alloc, id)?;
    json!(in alloc; {"blobs": blobs, "id": id})
}

/// Blobs as a value.
fn blobs_value(alloc: Global, blobs: &[Blob]) -> Result<Value, AllocError>
    ensures value { IfOk result (λ value. view value ≡ list_data (map blob_data blobs.now)) }
    ensures fits { IfOk result (λ _. AllByRecursion FitsBlob blobs.now) }
{
    let mut values = Vec::with_capacity(alloc, blobs.len())?;
    for blob in blobs {
        blob_fits(*blob);
        values.push(blob_value(alloc, *blob)?)?;
    }
    Ok(Value::Array(values))
}

/// A blob as a value.
fn blob_value(alloc: Global, entry: Blob) -> Result<Value, AllocError>
    ensures { IfOk result (λ value. view value ≡ blob_data entry) }
{
    let id = id_value(alloc, entry.blob.id)?;
    let word = type_word(entry.blob.blob_type);
    json!(in alloc; {"id": id, "length": entry.length, "offset": entry.offset, "type": word})
}

/// What the type of an id says of it.
fn id_fits(id: Id)
    ensures { IsDigest id }
{}

/// What the types of an entry's fields say of them.
fn blob_fits(entry: Blob)
    ensures { FitsBlob entry }
{}

/// The word that names a type of blobs.
fn type_word(blob_type: BlobType) -> &'static str
    ensures { result.now ≡ spec.type_word blob_type }
{
    match blob_type {
        BlobType::Content => "data",
        BlobType::Tree => "tree",
    }
}

/// An index reads back from its text, where its ids have 32 bytes and its numbers fit. What is read of any
/// bytes is so.
pub fn written_indexes_read_back()
    ensures written { (packs : List PackData) → Fits packs → index_of (index_text packs) ≡ Ok packs }
    ensures read { (bytes : List ℕ) (packs : List PackData) → index_of bytes ≡ Ok packs → Fits packs }
{}
