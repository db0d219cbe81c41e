ghost use Rattle.std.specs.Prelude.{◌≡◌, ◌≢◌, ◌-◌, ◌^◌, Err, IfErr, IfOk, IsOk, None, Some, OnOk, length, map, min};
ghost use Rattle.std.specs.Io.KnownBytes.{Appends, Keeps};
ghost use Rattle.std.specs.List.{concat};
ghost use Rattle.std.specs.Result.{result_map_both};
ghost use Rattle.keep_nodes.specs.Choosing as choosing;
ghost use Rattle.keep_nodes.specs.Entries.{entry_view};
ghost use Rattle.keep_read.specs.Contents.{joined};
ghost use Rattle.keep_restores.specs.Dumping as spec;
ghost use Rattle.keep_restores.specs.Dumping.{IsDumped, dump_due, first_lost};
ghost use Rattle.keep_restores.specs.declared.not_dumped.NotDumped.TheVariants.{Memory, WriteFailed};
ghost use Rattle.keep_catalog.specs.declared.reach_error.ReachError.TheVariants as the_reach_error;

use crate::not_dumped::NotDumped;
use keep_catalog::{Catalog, ReachError};
use keep_names::Id;
use keep_nodes::{PathNode, node_at, nodes_of, piece};
use keep_tree::NodeKind;
use keep_view::View;
use std::alloc::Global;
use std::io::Write;

/// Writes the bytes of the file that the snapshot of this name has at just this path, and tells how many there are, up
/// to 2^64 - 1. The path has `/` before each name, as trees spell names.
///
/// Of pieces of files only its own are looked for, and all of them before any is written. They are written one after
/// another, from the repository's own bytes; the writer isn't flushed.
pub fn dump<W: Write>(
    alloc: Global,
    view: &View,
    snapshot: Id,
    path: &str,
    writer: &mut W,
) -> Result<u64, NotDumped>
    ensures dumped { IfOk result (IsDumped (dump_due view.now.repo snapshot path.now)
        (W.contents writer.old) (W.contents writer.new)) }
    ensures refused { IfErr result (λ why. why ≢ Memory → why ≢ WriteFailed
        → dump_due view.now.repo snapshot path.now ≡ Err why) }
    ensures whole { result ≡ Err WriteFailed → IsOk (dump_due view.now.repo snapshot path.now) }
    ensures kept { IfErr result (λ why. why ≢ WriteFailed
        → Keeps (W.contents writer.old) (W.contents writer.new)) }
{
    let entries = nodes_of(alloc, view, snapshot)?;
    let content = content_at(&entries, path)?;
    let catalog = view.read_past(alloc)?;
    let parts = parts_of(alloc, &catalog, content)?;
    write_all(&parts, writer)
}

/// The pieces of the file at this path.
fn content_at<'a>(entries: &'a [PathNode], path: &str) -> Result<&'a [Id], NotDumped>
    ensures { result_map_both (λ ids. ids.now) (λ why. why) result
        ≡ spec.content_in (choosing.node_at path.now (map entry_view entries.entry.now)) }
{
    let Some(entry) = node_at(entries, path) else {
        return Err(NotDumped::NoPath);
    };
    match &entry.node.kind {
        NodeKind::Dir { subtree: _ } => Err(NotDumped::Folder),
        NodeKind::File { content } => Ok(content),
        NodeKind::Other { type_name: _ } => Err(NotDumped::Other),
    }
}

/// The bytes of each of these pieces, or why the first that can't be had can't.
fn parts_of<'a>(
    alloc: Global,
    catalog: &'a Catalog,
    content: &[Id],
) -> Result<Vec<&'a [u8]>, ReachError>
    ensures joined { IfOk result (λ parts.
        concat (map (λ part. part.now) parts.items) ≡ joined catalog.entry.now content.now) }
    ensures had { IfOk result (λ _. first_lost catalog.entry.now content.now ≡ None) }
    ensures lost { IfErr result (λ why. why ≢ the_reach_error.Memory
        → first_lost catalog.entry.now content.now ≡ Some why) }
{
    let mut parts = Vec::with_capacity(alloc, content.len())?;
    for id in content {
        let bytes = piece(alloc, catalog, *id)?;
        parts.push(bytes)?;
    }
    Ok(parts)
}

/// Writes these bytes, one part after another, and tells how many there are, up to 2^64 - 1.
fn write_all<W: Write>(parts: &[&[u8]], writer: &mut W) -> Result<u64, NotDumped>
    ensures written { OnOk result (Appends (W.contents writer.old) (W.contents writer.new)
        (concat (map (λ part. part.now) parts.now))) }
    ensures size { IfOk result (λ size.
        size ≡ min (length (concat (map (λ part. part.now) parts.now))) (2 ^ 64 - 1)) }
    ensures failed { IfErr result (λ why. why ≡ WriteFailed) }
{
    let mut written = 0u64;
    for part in parts {
        if let Err(_) = writer.write_all(part) {
            return Err(NotDumped::WriteFailed);
        }
        written = written.saturating_add(part.len() as u64);
    }
    Ok(written)
}
