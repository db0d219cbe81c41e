ghost use Rattle.std.specs.Prelude.{◌≡◌, ◌≢◌, ◌-◌, ◌<◌, ◌≤◌, false, true, [], ◌∷◌, IfErr, IfOk, OnOk, Some, drop, length, map, take};
ghost use Rattle.std.specs.List.{list_any};
ghost use Rattle.serde_json.specs.Written.{has_float};
ghost use Rattle.keep_reach.specs.Reach.{most_levels};
ghost use Rattle.keep_tree.specs.Tree.{node_view};
ghost use Rattle.keep_tree.specs.Written.{tree_data};
ghost use Rattle.keep_build.specs.Blobs.{id_of, is_full, tree_blob};
ghost use Rattle.keep_backup.specs.Files.{file_view, paths_seen, seen};
ghost use Rattle.keep_backup.specs.Folders.{folder_at, root_folder};
ghost use Rattle.keep_backup.specs.Paths.{AreNamed, HasOtherName, HaveNames, HaveOneName, StandInOrder, is_too_deep};
ghost use Rattle.keep_backup.specs.Walk.{Took, blobs_below, blobs_of, nodes_of, pieces_of, walk_refusal, root_tree};
ghost use Rattle.keep_plan.specs.declared.plan_error.PlanError.TheVariants.{Full, Memory};

use crate::paths::PathFile;
use keep_build::{Cut, Storing};
use keep_names::{BlobType, Id};
use keep_plan::PlanError;
use keep_tree::{Node, Tree, write_tree};
use std::alloc::Global;
use std::borrow::CowSlice;

/// Offers the pieces of these files and the trees of their folders, and tells the id of the root's tree.
/// Where one is too deep, nothing is offered.
pub(crate) fn walk<'a>(
    alloc: Global,
    files: &[PathFile<'a>],
    cut: Cut,
    storing: &mut Storing<'a>,
) -> Result<Id, PlanError>
    requires in_order { StandInOrder (paths_seen 0 files.now) }
    requires named { AreNamed (paths_seen 0 files.now) }
    ensures within { IfOk result (λ _. list_any is_too_deep (paths_seen 0 files.now) ≡ false) }
    ensures took { OnOk result
        (Took (blobs_of cut.bytes (root_folder (map file_view files.now))) storing.old storing.new) }
    ensures root { IfOk result (λ id. id ≡ id_of (root_tree cut.bytes (root_folder (map file_view files.now)))) }
    ensures refused { IfErr result (λ error. error ≢ Memory
        → walk_refusal cut.bytes (map file_view files.now) ≡ Some error) }
{
    if files.iter().any(|file| file.names.len() > 256) {
        return Err(PlanError::TooDeep);
    }
    walk_folder(alloc, files, 0, cut, storing)
}

/// Offers what is in a folder so many names below the root, through which the files' paths go, and then its
/// tree.
#[cycle(walking)]
fn walk_folder<'a>(
    alloc: Global,
    files: &[PathFile<'a>],
    depth: usize,
    cut: Cut,
    storing: &mut Storing<'a>,
) -> Result<Id, PlanError>
    requires in_order { StandInOrder (paths_seen depth files.now) }
    requires names { HaveNames (most_levels - depth) (paths_seen depth files.now) }
    ensures took { OnOk result (Took (blobs_of cut.bytes (folder_at (most_levels - depth) (seen depth files.now)))
        storing.old storing.new) }
    ensures id { IfOk result (λ id. id
        ≡ id_of (root_tree cut.bytes (folder_at (most_levels - depth) (seen depth files.now)))) }
    ensures refused { IfErr result (λ error. error ≢ Memory → (error ≡ Full)
        × (list_any is_full (blobs_of cut.bytes (folder_at (most_levels - depth) (seen depth files.now)))
        ≡ true)) }
{
    let mut nodes = Vec::new(alloc);
    let mut start = 0;
    while start < files.len() {
        let rest = &files[start..];
        let count = count_at(rest, depth);
        let node = walk_node(alloc, &rest[..count], depth, cut, storing)?;
        nodes.push(node)?;
        start += count;
    }
    put_tree(alloc, nodes, storing)
}

/// Offers what is below the one name that the files' paths have there: the pieces of a file, or a folder.
#[cycle(walking)]
fn walk_node<'a>(
    alloc: Global,
    files: &[PathFile<'a>],
    depth: usize,
    cut: Cut,
    storing: &mut Storing<'a>,
) -> Result<Node, PlanError>
    requires in_order { StandInOrder (paths_seen depth files.now) }
    requires names { HaveNames (most_levels - depth) (paths_seen depth files.now) }
    requires some { 0 < length files.now }
    requires one_name { HaveOneName (paths_seen depth files.now) }
    ensures took { OnOk result (Took
        (blobs_below cut.bytes (folder_at (most_levels - depth) (seen depth files.now))) storing.old storing.new) }
    ensures node { IfOk result (λ node. node_view node ∷ []
        ≡ nodes_of cut.bytes (folder_at (most_levels - depth) (seen depth files.now))) }
    ensures refused { IfErr result (λ error. error ≢ Memory → (error ≡ Full)
        × (list_any is_full (blobs_below cut.bytes (folder_at (most_levels - depth) (seen depth files.now)))
        ≡ true)) }
{
    let first = &files[0];
    let name = String::from_str(alloc, first.names[depth])?;
    if first.names.len() == depth + 1 {
        let content = put_pieces(alloc, first.bytes, cut, storing)?;
        return Ok(Node::file(alloc, name, content));
    }
    let subtree = walk_folder(alloc, files, depth + 1, cut, storing)?;
    Ok(Node::dir(alloc, name, subtree))
}

/// How many of the files, from the first on, have the first one's name at this depth.
fn count_at(files: &[PathFile], depth: usize) -> usize
    requires some { 0 < length files.now }
    requires names { HaveNames (most_levels - depth) (paths_seen depth files.now) }
    ensures some { 0 < result }
    ensures within { result ≤ length files.now }
    ensures one_name { HaveOneName (paths_seen depth (take result files.now)) }
    ensures other_name { HasOtherName (paths_seen depth files.now)
        (paths_seen depth (drop result files.now)) }
{
    let name = files[0].names[depth];
    for (i, file) in files.iter().enumerate() {
        if file.names[depth] != name {
            return i;
        }
    }
    files.len()
}

/// Offers the tree of these nodes.
fn put_tree(alloc: Global, nodes: Vec<Node>, storing: &mut Storing) -> Result<Id, PlanError>
    requires { has_float (tree_data (map node_view nodes.items)) ≡ false }
    ensures took { OnOk result (Took (tree_blob (map node_view nodes.items) ∷ []) storing.old storing.new) }
    ensures id { IfOk result (λ id. id ≡ id_of (tree_blob (map node_view nodes.items))) }
    ensures refused { IfErr result (λ error. error ≢ Memory → (error ≡ Full)
        × (list_any is_full (tree_blob (map node_view nodes.items) ∷ []) ≡ true)) }
{
    let text = write_tree(alloc, &Tree { nodes })?;
    storing.put(BlobType::Tree, CowSlice::Owned(text))
}

/// Offers the pieces of a file, and tells their ids.
fn put_pieces<'a>(
    alloc: Global,
    bytes: &'a [u8],
    cut: Cut,
    storing: &mut Storing<'a>,
) -> Result<Vec<Id>, PlanError>
    ensures took { OnOk result (Took (pieces_of cut.bytes bytes.now) storing.old storing.new) }
    ensures ids { IfOk result (λ ids. ids.items ≡ map id_of (pieces_of cut.bytes bytes.now)) }
    ensures refused { IfErr result (λ error. error ≢ Memory
        → (error ≡ Full) × (list_any is_full (pieces_of cut.bytes bytes.now) ≡ true)) }
{
    let mut ids = Vec::new(alloc);
    for piece in bytes.chunks(cut.piece_length()) {
        let id = storing.put(BlobType::Content, CowSlice::Borrowed(piece))?;
        ids.push(id)?;
    }
    Ok(ids)
}
