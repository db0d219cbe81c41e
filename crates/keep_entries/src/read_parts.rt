ghost use Rattle.std.specs.Prelude.{◌≡◌, IfOk, ok_or, option_map};
ghost use Rattle.serde_json.specs.View.{view};
ghost use Rattle.keep_docs.specs.Doc.{Answers};
ghost use Rattle.keep_docs.specs.Fields as fields;
ghost use Rattle.keep_entries.specs.Shape as spec;
ghost use Rattle.keep_entries.specs.declared.form.Form.TheVariants.{Moments};
ghost use Rattle.keep_entries.specs.declared.misread.Misread.TheVariants.{Memory, OtherShape};

use crate::form::Form;
use crate::misread::Misread;
use keep_change::{PackMark, StoredFile};
use keep_docs::{id_at, id_in};
use keep_names::{FileName, Id, Kind, decode_hex, parse_id};
use keep_repo::{Bytes, Mark};
use serde_json::Value;
use std::alloc::{AllocError, Global};

/// Whether a value is an object of so many members.
pub(crate) fn has_members(value: &Value, count: usize) -> bool
    ensures { result ≡ spec.has_members count (view value.now) }
{
    match value.as_object() {
        Some(members) => members.len() == count,
        None => false,
    }
}

/// The kind that a word names.
fn kind_named(word: &str) -> Option<Kind>
    ensures { result ≡ spec.kind_named word.now }
{
    match word {
        "pack" => Some(Kind::Pack),
        "index" => Some(Kind::Index),
        "snapshot" => Some(Kind::Snapshot),
        _ => None,
    }
}

/// The id whose digits these are.
fn id_of_text(text: &str) -> Option<Id>
    ensures { result ≡ fields.id_of_text text.now }
{
    parse_id(text).ok()
}

/// The name of a file that a text says.
fn name_of_text(text: &str) -> Option<FileName>
    ensures { result ≡ spec.name_of_text text.now }
{
    let (word, digits) = text.split_once('/')?;
    let kind = kind_named(word)?;
    let id = id_of_text(digits)?;
    Some(FileName { kind, id })
}

/// The name of a file that a value says.
pub(crate) fn name_in(value: &Value) -> Option<FileName>
    ensures { result ≡ spec.as_name (view value.now) }
{
    name_of_text(value.as_str()?)
}

/// The bytes whose hex a text is.
fn bytes_of_text(alloc: Global, text: &str) -> Result<Option<Vec<u8>>, AllocError>
    ensures { IfOk result (λ found. option_map (λ bytes. bytes.items) found ≡ spec.bytes_of_text text.now) }
{
    decode_hex(alloc, text)
}

/// The bytes that a value says.
fn bytes_in(alloc: Global, value: &Value) -> Result<Vec<u8>, Misread>
    ensures { Answers Memory (λ bytes. bytes.items) (ok_or (spec.as_bytes (view value.now)) OtherShape) result }
{
    let text = value.as_str().ok_or(Misread::OtherShape)?;
    let found = bytes_of_text(alloc, text)?;
    found.ok_or(Misread::OtherShape)
}

/// The file with its bytes that a value says.
pub(crate) fn file_in(alloc: Global, value: &Value) -> Result<StoredFile, Misread>
    ensures { Answers Memory (λ file. file) (ok_or (spec.file_in (view value.now)) OtherShape) result }
{
    if !has_members(value, 2) {
        return Err(Misread::OtherShape);
    }
    let name = name_in(value.get("file").ok_or(Misread::OtherShape)?).ok_or(Misread::OtherShape)?;
    let digits = value.get("bytes").ok_or(Misread::OtherShape)?;
    let bytes = bytes_in(alloc, digits)?;
    let bytes = Bytes::new(alloc, bytes)?;
    Ok(StoredFile::under(name, bytes))
}

/// The mark that a value says in an entry of the form.
pub(crate) fn mark_in(form: Form, value: &Value) -> Option<PackMark>
    ensures { result ≡ spec.mark_in form (view value.now) }
{
    match form {
        Form::Packs => Some(mark_at(id_in(value)?, 0)),
        Form::Moments => moment_in(value),
    }
}

/// The mark that a value says with its moment.
fn moment_in(value: &Value) -> Option<PackMark>
    ensures { result ≡ spec.mark_in Moments (view value.now) }
{
    if !has_members(value, 2) {
        return None;
    }
    let pack = id_at(value, "id")?;
    let moment = value.get("moment")?.as_i64()?;
    Some(mark_at(pack, moment))
}

fn mark_at(pack: Id, moment: i64) -> PackMark
    ensures { result ≡ spec.mark_at pack moment }
{
    PackMark {
        pack,
        mark: Mark { moment },
    }
}
