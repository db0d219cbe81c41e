ghost use Rattle.std.specs.Prelude.{◌≡◌, IfOk, Ok, Some, map, ok_or, option_map, string_bytes};
ghost use Rattle.serde_json.specs.View.{members_view, view};
ghost use Rattle.keep_docs.specs.Fields.{other_members};
ghost use Rattle.keep_docs.specs.Doc.{Answers};
ghost use Rattle.keep_docs.specs.declared.doc.DocError.TheVariants.{Memory};
ghost use Rattle.keep_snap.specs.Shape.{IsSnap};
ghost use Rattle.keep_snap.specs.Snap.{shape_of, snap_of, snap_view};
ghost use Rattle.keep_snap.specs.Snap as spec;
ghost use Rattle.keep_snap.specs.declared.snap.SnapError.TheVariants.{BadSnapshot, Doc};

use crate::copies::{text_copy, value_copy};
use crate::time::parse_time;
use keep_docs::{
    DocError, id_at, list_at, list_or_null_at, optional_id_at, optional_str_at, others, read_doc,
    str_at, texts,
};
use keep_names::Id;
use serde_json::{Map, Value};
use std::alloc::{AllocError, Global};
use std::fmt;
use thiserror::Error;

/// What a snapshot says.
#[derive(Drop)]
pub struct Snap {
    /// When it was taken, as it is written; `parse_time` tells what it says.
    pub time: String,
    /// The tree of what was backed up.
    pub tree: Id,
    /// What was backed up. Where a snapshot has no paths, the one text of its `dir`.
    pub paths: Vec<String>,
    pub hostname: Option<String>,
    pub username: Option<String>,
    pub tags: Vec<String>,
    /// The snapshot that this one was made from.
    pub original: Option<Id>,
    /// The member `dir` of an early snapshot, as it was read.
    pub dir: Option<Value>,
    /// What is carried unchanged: the members at all other keys.
    pub others: Map<String, Value>,
}

/// Why bytes weren't read as a snapshot. The first that holds is answered, in this order.
#[derive(Clone, Copy, Debug, PartialEq, Eq, Error)]
pub enum SnapError {
    /// It isn't a document.
    Doc(DocError),
    /// A field is missing that has to be there, or is of another shape.
    BadSnapshot,
    /// The time isn't one.
    BadTime,
}

impl From<DocError> for SnapError {
    ghost use Rattle.std.specs.Prelude.{◌≡◌};
    ghost use Rattle.keep_snap.specs.declared.snap.SnapError.TheVariants.{Doc};

    ghost from_gives = { λ refusal error. error ≡ Doc refusal };

    fn from(refusal: DocError) -> SnapError {
        SnapError::Doc(refusal)
    }
}

impl From<AllocError> for SnapError {
    ghost use Rattle.std.specs.Prelude.{◌≡◌};
    ghost use Rattle.keep_docs.specs.declared.doc.DocError.TheVariants.{Memory};
    ghost use Rattle.keep_snap.specs.declared.snap.SnapError.TheVariants.{Doc};

    ghost from_gives = { λ _ error. error ≡ Doc Memory };

    fn from(_error: AllocError) -> SnapError {
        SnapError::Doc(DocError::Memory)
    }
}

impl SnapError {
    ghost use Rattle.std.specs.Prelude.{◌≡◌};
    ghost use Rattle.keep_snap.specs.Refusal.{snap_number};

    /// The number by which operators know the refusal. Want of memory has none.
    pub fn number(&self) -> Option<u8>
        ensures { result ≡ snap_number self.now }
    {
        match self {
            SnapError::Doc(why) => why.number(),
            SnapError::BadSnapshot => Some(10),
            SnapError::BadTime => Some(11),
        }
    }
}

impl fmt::Display for SnapError {
    ghost use Rattle.std.specs.Prelude.{Some};
    ghost use Rattle.keep_snap.specs.Refusal.{snap_word};

    ghost output = { λ refusal. Some (snap_word refusal) };

    fn fmt<W: fmt::Write>(&self, f: &mut fmt::Formatter<W>) -> fmt::Result {
        match self {
            SnapError::Doc(why) => write!(f, "{why}"),
            SnapError::BadSnapshot => f.write_str("BadSnapshot"),
            SnapError::BadTime => f.write_str("BadTime"),
        }
    }
}

/// Reads a snapshot (restic's design document, "Snapshots"). Null stands for no tags, and for nothing else.
pub fn read_snap(alloc: Global, bytes: &[u8]) -> Result<Snap, SnapError>
    ensures read { Answers (Doc Memory) snap_view (snap_of bytes.now) result }
    ensures whole { IfOk result (λ snap. IsSnap (snap_view snap)) }
{
    timed_snap(alloc, bytes)
}

/// The snapshot that the bytes hold, if its time is one.
fn timed_snap(alloc: Global, bytes: &[u8]) -> Result<Snap, SnapError>
    ensures { Answers (Doc Memory) snap_view (snap_of bytes.now) result }
{
    let snap = read_shape(alloc, bytes)?;
    if parse_time(snap.time.as_str()).is_none() {
        return Err(SnapError::BadTime);
    }
    Ok(snap)
}

/// The snapshot that the bytes hold, whatever its time is.
fn read_shape(alloc: Global, bytes: &[u8]) -> Result<Snap, SnapError>
    ensures { Answers (Doc Memory) snap_view (shape_of bytes.now) result }
{
    let value = read_doc(alloc, bytes)?;
    snap_in(alloc, &value)
}

/// The snapshot that a document holds.
fn snap_in(alloc: Global, value: &Value) -> Result<Snap, SnapError>
    ensures { Answers (Doc Memory) snap_view (ok_or (spec.snap_in (view value.now)) BadSnapshot) result }
{
    let time = str_at(value, "time").ok_or(SnapError::BadSnapshot)?;
    let tree = id_at(value, "tree").ok_or(SnapError::BadSnapshot)?;
    let paths = paths_in(alloc, value)?;
    let hostname = optional_str_at(value, "hostname").ok_or(SnapError::BadSnapshot)?;
    let username = optional_str_at(value, "username").ok_or(SnapError::BadSnapshot)?;
    let tags = tags_in(alloc, value)?;
    let original = optional_id_at(value, "original").ok_or(SnapError::BadSnapshot)?;
    let dir = value_copy(value.get("dir"))?;
    let others = unnamed(alloc, value)?;
    let hostname = text_copy(alloc, hostname)?;
    let username = text_copy(alloc, username)?;
    let time = String::from_str(alloc, time)?;
    Ok(Snap {
        time,
        tree,
        paths,
        hostname,
        username,
        tags,
        original,
        dir,
        others,
    })
}

/// The paths, or where they are missing the one text of `dir`.
fn paths_in(alloc: Global, value: &Value) -> Result<Vec<String>, SnapError>
    ensures { Answers (Doc Memory) (λ paths. map string_bytes paths.items)
        (ok_or (spec.paths_in (view value.now)) BadSnapshot) result }
{
    if value.get("paths").is_none() {
        let dir = str_at(value, "dir").ok_or(SnapError::BadSnapshot)?;
        let mut paths = Vec::with_capacity(alloc, 1)?;
        paths
            .push(String::from_str(alloc, dir)?)
            .map_err(AllocError::from)?;
        return Ok(paths);
    }
    let items = list_at(value, "paths").ok_or(SnapError::BadSnapshot)?;
    texts(alloc, items)?.ok_or(SnapError::BadSnapshot)
}

fn tags_in(alloc: Global, value: &Value) -> Result<Vec<String>, SnapError>
    ensures { Answers (Doc Memory) (λ tags. map string_bytes tags.items)
        (ok_or (spec.tags_in (view value.now)) BadSnapshot) result }
{
    let items = list_or_null_at(value, "tags").ok_or(SnapError::BadSnapshot)?;
    texts(alloc, items)?.ok_or(SnapError::BadSnapshot)
}

/// The members that a snapshot has no fields for.
fn unnamed(alloc: Global, value: &Value) -> Result<Map<String, Value>, AllocError>
    ensures { IfOk result (λ found. members_view found.entries ≡ other_members spec.named (view value.now)) }
{
    let named = [
        "dir", "hostname", "original", "paths", "tags", "time", "tree", "username",
    ];
    others(alloc, value, &named)
}
