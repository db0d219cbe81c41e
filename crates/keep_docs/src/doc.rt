ghost use Rattle.std.specs.Prelude.{◌≡◌, ◌≤◌, ℕ, List, false, IfOk, IsUtf8, None};
ghost use Rattle.serde_json.specs.Data.{Data, depth};
ghost use Rattle.serde_json.specs.Find as find;
ghost use Rattle.serde_json.specs.Read.{max_depth, read};
ghost use Rattle.serde_json.specs.View.{items_view, members_view, number_view, view};
ghost use Rattle.serde_json.specs.Written.{compact_text};
ghost use Rattle.serde_json.specs.Written as written;
ghost use Rattle.keep_docs.specs.Begun.{begins_text};
ghost use Rattle.keep_docs.specs.Doc.{Answers, doc_of};
ghost use Rattle.keep_docs.specs.Readable.{AreReadable, HasReadable, IsReadable, IsWhole};
ghost use Rattle.keep_docs.specs.declared.doc.DocError.TheVariants.{Memory};

use serde_json::{Map, Number, Value};
use std::alloc::{AllocError, Global};
use std::fmt;
use thiserror::Error;

/// Why bytes weren't read as a document.
#[derive(Clone, Copy, Debug, PartialEq, Eq, Error)]
pub enum DocError {
    /// The bytes aren't one JSON text in UTF-8, nest deeper than 127 levels, or have a number that no float
    /// comes near.
    NotJson,
    /// A number is no whole one, or fits neither an i64 nor a u64.
    BadNumber,
    /// Memory ran out.
    Memory,
}

impl DocError {
    ghost use Rattle.std.specs.Prelude.{◌≡◌};
    ghost use Rattle.keep_docs.specs.Refusal.{doc_number};

    /// The number by which operators know the refusal. Want of memory has none.
    pub fn number(&self) -> Option<u8>
        ensures { result ≡ doc_number self.now }
    {
        match self {
            DocError::NotJson => Some(2),
            DocError::BadNumber => Some(3),
            DocError::Memory => None,
        }
    }
}

impl fmt::Display for DocError {
    ghost use Rattle.std.specs.Prelude.{Some};
    ghost use Rattle.keep_docs.specs.Refusal.{doc_word};

    ghost output = { λ refusal. Some (doc_word refusal) };

    fn fmt<W: fmt::Write>(&self, f: &mut fmt::Formatter<W>) -> fmt::Result {
        f.write_str(match self {
            DocError::NotJson => "NotJson",
            DocError::BadNumber => "BadNumber",
            DocError::Memory => "Memory",
        })
    }
}

/// Reads a document (RFC 8259). Of equal keys in an object the last stays, and only numbers of what stays
/// count.
pub fn read_doc(alloc: Global, bytes: &[u8]) -> Result<Value, DocError>
    ensures read { Answers Memory view (doc_of bytes.now) result }
    ensures readable { IfOk result (λ value. IsReadable (view value)) }
{
    if !may_begin(bytes) {
        return Err(DocError::NotJson);
    }
    let value = match Value::from_slice(alloc, bytes) {
        Ok(value) => value,
        Err(error) => {
            if error.is_memory() {
                return Err(DocError::Memory);
            }
            return Err(DocError::NotJson);
        }
    };
    if has_float(&value) {
        return Err(DocError::BadNumber);
    }
    Ok(value)
}

/// Whether a document may begin so. Most bytes that are none are told by their first one, without a reader made ready.
fn may_begin(bytes: &[u8]) -> bool
    ensures { result ≡ false → read bytes.now ≡ None }
{
    match bytes.first() {
        Some(byte) => begins_text(*byte),
        None => true,
    }
}

/// Whether a JSON text may begin with the byte (RFC 8259, sections 2 and 3).
fn begins_text(byte: u8) -> bool
    ensures { result ≡ begins_text byte }
{
    matches!(
        byte,
        b' ' | b'\t' | b'\n' | b'\r' | b'{' | b'[' | b'"' | b'-' | b'0'..=b'9' | b't' | b'f' | b'n'
    )
}

/// The text of a document: compact, the keys of each object in byte order, numbers in decimal.
#[tactic(auto, using(crate::proofs::FieldLemmas::written_reads_back))]
pub fn write_doc(alloc: Global, value: &Value) -> Result<Vec<u8>, AllocError>
    ensures text { IfOk result (λ bytes. written.has_float (view value.now) ≡ false
        → bytes.items ≡ compact_text (view value.now)) }
    ensures utf8 { IfOk result (λ bytes. IsUtf8 bytes.items) }
    ensures reads_back { IfOk result (λ bytes. written.has_float (view value.now) ≡ false
        → depth (view value.now) ≤ max_depth → doc_of bytes.items ≡ Ok (view value.now)) }
{
    value.to_vec(alloc)
}

/// Whether the number is neither a u64 nor an i64.
fn is_float(number: Number) -> bool
    ensures value { result ≡ find.is_float (number_view number) }
    ensures whole { result ≡ false → IsWhole (number_view number) }
{
    match number.as_u64() {
        Some(_) => false,
        None => number.as_i64().is_none(),
    }
}

/// Whether a number of the value is neither a u64 nor an i64.
#[cycle(has_float)]
fn has_float(value: &Value) -> bool
    ensures value { result ≡ written.has_float (view value.now) }
    ensures readable { result ≡ false → IsReadable (view value.now) }
{
    match value {
        Value::Null | Value::Bool(_) | Value::String(_) => false,
        Value::Number(number) => is_float(*number),
        Value::Array(items) => items_have_float(items),
        Value::Object(members) => members_have_float(members),
    }
}

#[cycle(has_float)]
fn items_have_float(items: &Vec<Value>) -> bool
    ensures value { result ≡ written.items_have_float (items_view items.now.items) }
    ensures readable { result ≡ false → AreReadable (items_view items.now.items) }
{
    for item in items {
        if has_float(item) {
            return true;
        }
    }
    false
}

#[cycle(has_float)]
fn members_have_float(members: &Map<String, Value>) -> bool
    ensures value { result ≡ written.members_have_float (members_view members.now.entries) }
    ensures readable { result ≡ false → HasReadable (members_view members.now.entries) }
{
    for (_, member) in members.iter() {
        if has_float(member) {
            return true;
        }
    }
    false
}

/// Which values have a text that reads back as themselves: those whose texts are UTF-8, whose keys ascend and
/// whose numbers are whole and fit, nested to at most 127 levels. What is read of any bytes is one of these.
pub fn readable_values_read_back()
    ensures written { (d : Data) → IsReadable d → depth d ≤ max_depth → doc_of (compact_text d) ≡ Ok d }
    ensures read { (bytes : List ℕ) (d : Data) → doc_of bytes ≡ Ok d
        → IsReadable d × (depth d ≤ max_depth) }
{}
