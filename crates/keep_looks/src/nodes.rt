ghost use Rattle.std.specs.Prelude.{◌≡◌, ◌^◌, IfOk, map, option_map, string_bytes, if◌then◌else◌};
ghost use Rattle.keep_docs.specs.Doc.{Answers};
ghost use Rattle.keep_catalog.specs.declared.reach_error.ReachError.TheVariants.{Memory};
ghost use Rattle.keep_members.specs.Members.{stamp_view, text_view};
ghost use Rattle.keep_nodes.specs.Entries.{entry_view};
ghost use Rattle.keep_read.specs.declared.restore_error.RestoreError.TheVariants.{Reach};
ghost use Rattle.keep_nodes.specs.Tallies as tallies;
ghost use Rattle.keep_tree.specs.Tree.{kind_view};
ghost use Rattle.keep_words.specs.Read.{text_of};
ghost use Rattle.keep_looks.specs.Nodes.{mode_due, moment_at, node_due, node_rows_due, node_shown, nodes_shown, owner_due, second_of, size_due};

use crate::MachineZone;
use keep_members::{FoundMembers, Stamp, members_in};
use keep_names::Id;
use keep_nodes::{Lengths, PathNode, nodes_below, nodes_of};
use keep_read::RestoreError;
use keep_rows::{NodeRow, When};
use keep_tree::NodeKind;
use keep_view::View;
use std::alloc::{AllocError, Global};
use std::slice;

/// What the snapshot has at the path and below it, or all that it has: depth first, a folder before what is in it.
/// Nothing is there where no node has that path. Times are shown on the zone's clock.
///
/// A file that says no size has that of its pieces, which are looked up.
pub fn node_rows(
    alloc: Global,
    view: &View,
    snapshot: Id,
    path: Option<&str>,
    zone: &MachineZone,
) -> Result<Vec<NodeRow>, RestoreError>
    ensures { Answers (Reach Memory) (λ rows. map node_shown rows.items)
        (node_rows_due view.now.repo snapshot (text_of path.entry)) result }
{
    let catalog = view.read_past(alloc)?;
    let entries = nodes_of(alloc, view, snapshot)?;
    let mut lengths = Lengths::new(alloc, &catalog);
    let rows = rows_below(alloc, &entries, path.unwrap_or("/"), &mut lengths, zone)?;
    Ok(rows)
}

fn rows_below(
    alloc: Global,
    entries: &[PathNode],
    path: &str,
    lengths: &mut Lengths<'_>,
    zone: &MachineZone,
) -> Result<Vec<NodeRow>, AllocError>
    ensures { IfOk result (λ rows. map node_shown rows.items
        ≡ nodes_shown lengths.old path.now (map entry_view entries.now)) }
{
    let entries = nodes_below(alloc, entries, path)?;
    let mut rows = Vec::new(alloc);
    for entry in &entries {
        let row = row_of(alloc, entry, lengths, zone)?;
        rows.push(row)?;
    }
    Ok(rows)
}

fn row_of(
    alloc: Global,
    entry: &PathNode,
    lengths: &mut Lengths<'_>,
    zone: &MachineZone,
) -> Result<NodeRow, AllocError>
    ensures same { lengths.new ≡ lengths.old }
    ensures row { IfOk result (λ row. node_shown row ≡ node_due lengths.old (entry_view entry.now)) }
{
    let found = members_in(alloc, &entry.node.others)?;
    let size = size_of(entry, found.size, lengths)?;
    let owner = owner_of(alloc, &found)?;
    let path = entry.path.clone()?;
    Ok(NodeRow {
        mode: mode_of(&entry.node.kind, found.mode),
        owner,
        size,
        at: when_of(found.mtime, zone),
        path,
        target: found.link_target,
    })
}

fn mode_of(kind: &NodeKind, said: Option<u32>) -> u32
    ensures { result ≡ mode_due (kind_view kind.now) said }
{
    said.unwrap_or(bare_mode(kind))
}

/// The bits of a node of this kind to which no one has a right.
fn bare_mode(kind: &NodeKind) -> u32
    ensures { result ≡ if tallies.is_folder (kind_view kind.now) then 2 ^ 31 else 0 }
{
    match kind {
        NodeKind::Dir { subtree: _ } => 0x8000_0000,
        NodeKind::File { content: _ } | NodeKind::Other { type_name: _ } => 0,
    }
}

fn owner_of(alloc: Global, found: &FoundMembers) -> Result<String, AllocError>
    ensures { IfOk result (λ owner. string_bytes owner ≡ owner_due (text_view found.now.user) found.now.uid) }
{
    match (&found.user, found.uid) {
        (Some(user), _) => user.clone(),
        (None, Some(uid)) => format!(in alloc; "{uid}"),
        (None, None) => Ok(String::new(alloc)),
    }
}

/// How many bytes a file says that it has, or else its pieces have.
fn size_of(
    entry: &PathNode,
    said: Option<u64>,
    lengths: &mut Lengths<'_>,
) -> Result<Option<u64>, AllocError>
    ensures same { lengths.new ≡ lengths.old }
    ensures size { IfOk result (λ size. size ≡ size_due lengths.old said (entry_view entry.now)) }
{
    if !is_file(&entry.node.kind) {
        return Ok(None);
    }
    if let Some(size) = said {
        return Ok(Some(size));
    }
    let tally = lengths.tally(slice::from_ref(entry))?;
    Ok(Some(tally.bytes))
}

fn is_file(kind: &NodeKind) -> bool
    ensures { result ≡ tallies.is_file (kind_view kind.now) }
{
    matches!(kind, NodeKind::File { content: _ })
}

fn when_of(stamp: Option<Stamp>, zone: &MachineZone) -> Option<When>
    ensures { moment_at result ≡ second_of (option_map stamp_view stamp) }
{
    let moment = stamp?.seconds();
    Some(When {
        moment,
        offset: zone.offset_at(moment),
    })
}
