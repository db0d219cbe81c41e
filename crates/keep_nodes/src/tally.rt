ghost use Rattle.std.specs.Prelude.{◌≡◌, ◌<◌, ◌^◌, IfOk, count_by, length, map};
ghost use Rattle.keep_tree.specs.Tree.{kind_view};
ghost use Rattle.keep_nodes.specs.Entries.{entry_view};
ghost use Rattle.keep_nodes.specs.Lengths.{AreLengths, piece_length};
ghost use Rattle.keep_nodes.specs.Tallies as spec;
ghost use Rattle.keep_nodes.specs.Tallies.{at_most, bytes_of, content_length, kind_length, tally_of};

use crate::PathNode;
use keep_catalog::Catalog;
use keep_names::{BlobId, Id};
use keep_tree::NodeKind;
use std::alloc::AllocError;
use std::collections::BTreeMap;

/// What a snapshot has: how many nodes of each kind, each counted by path, and how many bytes.
#[derive(Clone, Copy, Debug, PartialEq, Eq)]
pub struct Tally {
    pub files: u64,
    pub folders: u64,
    /// Links and other nodes that are neither files nor folders.
    pub others: u64,
    /// The bytes of all pieces of the files, at most `u64::MAX`. A piece that has no chosen place has none.
    pub bytes: u64,
}

/// The tally of these nodes, by the lengths that are known and those that become so.
pub(crate) fn tally_with(
    catalog: &Catalog,
    entries: &[PathNode],
    known: &mut BTreeMap<Id, u32>,
) -> Result<Tally, AllocError>
    requires { AreLengths catalog.now known.old }
    ensures known { AreLengths catalog.now known.new }
    ensures tally { IfOk result (λ tally. tally ≡ tally_of catalog.now (map entry_view entries.now)) }
{
    let bytes = bytes_among(catalog, entries, known)?;
    Ok(Tally {
        files: files_among(entries),
        folders: folders_among(entries),
        others: others_among(entries),
        bytes,
    })
}

fn files_among(entries: &[PathNode]) -> u64
    ensures { result ≡ count_by (λ entry. spec.is_file (kind_view entry.node.kind)) entries.now }
{
    let files = entries.iter().filter(|entry| is_file(&entry.node.kind));
    files.count() as u64
}

fn folders_among(entries: &[PathNode]) -> u64
    ensures { result ≡ count_by (λ entry. spec.is_folder (kind_view entry.node.kind)) entries.now }
{
    let folders = entries.iter().filter(|entry| is_folder(&entry.node.kind));
    folders.count() as u64
}

fn others_among(entries: &[PathNode]) -> u64
    ensures { result ≡ count_by (λ entry. spec.is_other (kind_view entry.node.kind)) entries.now }
{
    let others = entries.iter().filter(|entry| is_other(&entry.node.kind));
    others.count() as u64
}

fn is_file(kind: &NodeKind) -> bool
    ensures { result ≡ spec.is_file (kind_view kind.now) }
{
    matches!(kind, NodeKind::File { content: _ })
}

fn is_folder(kind: &NodeKind) -> bool
    ensures { result ≡ spec.is_folder (kind_view kind.now) }
{
    matches!(kind, NodeKind::Dir { subtree: _ })
}

fn is_other(kind: &NodeKind) -> bool
    ensures { result ≡ spec.is_other (kind_view kind.now) }
{
    matches!(kind, NodeKind::Other { type_name: _ })
}

/// How many bytes the files have.
fn bytes_among(
    catalog: &Catalog,
    entries: &[PathNode],
    known: &mut BTreeMap<Id, u32>,
) -> Result<u64, AllocError>
    requires { AreLengths catalog.now known.old }
    ensures known { AreLengths catalog.now known.new }
    ensures bytes { IfOk result (λ bytes. bytes ≡ at_most (bytes_of catalog.now (map entry_view entries.now))) }
{
    let mut bytes = 0u64;
    for entry in entries {
        let more = kind_bytes(catalog, &entry.node.kind, known)?;
        bytes = bytes.saturating_add(more);
    }
    Ok(bytes)
}

/// How many bytes a node of this kind has.
fn kind_bytes(
    catalog: &Catalog,
    kind: &NodeKind,
    known: &mut BTreeMap<Id, u32>,
) -> Result<u64, AllocError>
    requires { AreLengths catalog.now known.old }
    ensures known { AreLengths catalog.now known.new }
    ensures bytes { IfOk result (λ bytes. bytes ≡ at_most (kind_length catalog.now (kind_view kind.now))) }
{
    match kind {
        NodeKind::File { content } => content_bytes(catalog, content, known),
        NodeKind::Dir { subtree: _ } | NodeKind::Other { type_name: _ } => Ok(0),
    }
}

/// How many bytes the pieces have together.
fn content_bytes(
    catalog: &Catalog,
    content: &[Id],
    known: &mut BTreeMap<Id, u32>,
) -> Result<u64, AllocError>
    requires { AreLengths catalog.now known.old }
    ensures known { AreLengths catalog.now known.new }
    ensures bytes { IfOk result (λ bytes. bytes ≡ at_most (content_length catalog.now content.now)) }
{
    let mut bytes = 0u64;
    for id in content {
        let more = piece_bytes(catalog, *id, known)?;
        bytes = bytes.saturating_add(more as u64);
    }
    Ok(bytes)
}

/// How many bytes the piece has. It is looked up once.
fn piece_bytes(catalog: &Catalog, id: Id, known: &mut BTreeMap<Id, u32>) -> Result<u32, AllocError>
    requires { AreLengths catalog.now known.old }
    ensures known { AreLengths catalog.now known.new }
    ensures bytes { IfOk result (λ bytes. bytes ≡ piece_length catalog.now id) }
{
    if let Some(length) = known.get(&id).copied() {
        return Ok(length);
    }
    let length = length_there(catalog, id);
    known.insert(id, length)?;
    Ok(length)
}

/// How many bytes the piece has at its chosen place.
fn length_there(catalog: &Catalog, id: Id) -> u32
    ensures { result ≡ piece_length catalog.now id }
{
    match catalog.place(BlobId::content(id)) {
        Some(place) => place.spot.length,
        None => 0,
    }
}
