ghost use Rattle.std.specs.Prelude.{◌≡◌, ℕ, All, Bool, IfOk, IsUtf8, List, Ok, OnOk, map, option_map, string_bytes};
ghost use Rattle.serde_json.specs.View.{members_view, view};
ghost use Rattle.serde_json.specs.Written.{compact_text};
ghost use Rattle.keep_docs.specs.Fields.{id_data};
ghost use Rattle.keep_names.specs.Id.{IsDigest};
ghost use Rattle.keep_names.specs.declared.id.Id.{Id};
ghost use Rattle.keep_snap.specs.Relabel.{retagged, retreed};
ghost use Rattle.keep_snap.specs.Shape.{IsSnap};
ghost use Rattle.keep_snap.specs.Snap.{SnapData, snap_of, snap_view};
ghost use Rattle.keep_snap.specs.Written.{IsCarried, snap_data, tags_data, text_data};
ghost use Rattle.keep_snap.specs.Written as spec;

use crate::snap::Snap;
use keep_docs::{id_value, members_copy, put, texts_value, write_doc};
use keep_names::Id;
use serde_json::{Map, Value};
use std::alloc::{AllocError, Global};

/// The text of a snapshot: one compact document, its keys in byte order, with no byte after it. A host,
/// a user, an original or a `dir` that is missing isn't written, and neither are tags that are empty.
pub fn write_snap(alloc: Global, snap: &Snap) -> Result<Vec<u8>, AllocError>
    ensures text { IfOk result (λ bytes. IsCarried (snap_view snap.now)
        → bytes.items ≡ compact_text (snap_data (snap_view snap.now))) }
    ensures reads_back { IfOk result (λ bytes. IsSnap (snap_view snap.now)
        → snap_of bytes.items ≡ Ok (snap_view snap.now)) }
{
    let value = snap_value(alloc, snap)?;
    write_doc(alloc, &value)
}

/// Which snapshots read back from their text as themselves: those that a document can hold. What is read of any
/// bytes is one of these.
pub fn snapshots_read_back()
    ensures written { (s : SnapData) → IsSnap s → snap_of (compact_text (snap_data s)) ≡ Ok s }
    ensures read { (bytes : List ℕ) (s : SnapData) → snap_of bytes ≡ Ok s → IsSnap s }
{}

/// A snapshot that can be written can be under other tags, if they are texts.
pub fn retagged_snapshots_can_be_written()
    ensures { (s : SnapData) (old : Id) (tags : List (List ℕ)) → IsSnap s → IsDigest old → All IsUtf8 tags
        → IsSnap (retagged s old tags) }
{}

/// A snapshot that can be written can have another tree.
pub fn retreed_snapshots_can_be_written()
    ensures { (s : SnapData) (old tree : Id) (tagged : Bool) → IsSnap s → IsDigest old → IsDigest tree
        → IsSnap (retreed s old tree tagged) }
{}

/// A snapshot as an object.
fn snap_value(alloc: Global, snap: &Snap) -> Result<Value, AllocError>
    ensures { IfOk result (λ value. view value ≡ snap_data (snap_view snap.now)) }
{
    let mut members = members_copy(&snap.others)?;
    let dir = dir_value(&snap.dir)?;
    put_if(alloc, &mut members, "dir", dir)?;
    let hostname = text_value(alloc, &snap.hostname)?;
    put_if(alloc, &mut members, "hostname", hostname)?;
    let original = original_value(alloc, snap.original)?;
    put_if(alloc, &mut members, "original", original)?;
    let paths = texts_value(alloc, &snap.paths)?;
    put(alloc, &mut members, "paths", paths)?;
    let tags = tags_value(alloc, &snap.tags)?;
    put_if(alloc, &mut members, "tags", tags)?;
    let time = Value::try_from_str(alloc, snap.time.as_str())?;
    put(alloc, &mut members, "time", time)?;
    let tree = id_value(alloc, snap.tree)?;
    put(alloc, &mut members, "tree", tree)?;
    let username = text_value(alloc, &snap.username)?;
    put_if(alloc, &mut members, "username", username)?;
    Ok(Value::Object(members))
}

/// Writes a member, if there is one to write.
fn put_if(
    alloc: Global,
    members: &mut Map<String, Value>,
    key: &str,
    value: Option<Value>,
) -> Result<(), AllocError>
    ensures { OnOk result (members_view members.new.entries
        ≡ spec.put_if key.now (option_map view value) (members_view members.old.entries)) }
{
    match value {
        Some(value) => put(alloc, members, key, value),
        None => Ok(()),
    }
}

fn dir_value(dir: &Option<Value>) -> Result<Option<Value>, AllocError>
    ensures { IfOk result (λ value. option_map view value ≡ option_map view dir.now) }
{
    match dir {
        Some(dir) => Ok(Some(dir.clone()?)),
        None => Ok(None),
    }
}

fn text_value(alloc: Global, text: &Option<String>) -> Result<Option<Value>, AllocError>
    ensures { IfOk result (λ value. option_map view value ≡ text_data (option_map string_bytes text.now)) }
{
    match text {
        Some(text) => Ok(Some(Value::try_from_str(alloc, text.as_str())?)),
        None => Ok(None),
    }
}

fn original_value(alloc: Global, original: Option<Id>) -> Result<Option<Value>, AllocError>
    ensures { IfOk result (λ value. option_map view value ≡ option_map id_data original) }
{
    match original {
        Some(id) => Ok(Some(id_value(alloc, id)?)),
        None => Ok(None),
    }
}

/// The tags, unless there are none.
fn tags_value(alloc: Global, tags: &[String]) -> Result<Option<Value>, AllocError>
    ensures { IfOk result (λ value. option_map view value ≡ tags_data (map string_bytes tags.now)) }
{
    if tags.is_empty() {
        return Ok(None);
    }
    Ok(Some(texts_value(alloc, tags)?))
}
