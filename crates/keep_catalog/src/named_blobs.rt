ghost use Rattle.std.specs.Prelude.{◌≡◌, ◌++◌, ◌↔◌, map, IfOk, OnOk, IsTrue};
ghost use Rattle.std.specs.List.{flat_map};
ghost use Rattle.keep_docs.specs.Doc.{Answers};
ghost use Rattle.keep_docs.specs.declared.doc.DocError.TheVariants as the_doc_error;
ghost use Rattle.keep_tree.specs.Tree.{kind_view, node_view};
ghost use Rattle.keep_tree.specs.declared.tree.TreeError.TheVariants as the_tree_error;
ghost use Rattle.keep_catalog.specs.Naming as spec;
ghost use Rattle.keep_catalog.specs.Naming.{named_in, named_of, nodes_read, read_tree_of};
ghost use Rattle.keep_names.specs.BlobId.{piece_of};
ghost use Rattle.keep_catalog.specs.declared.reach_error.ReachError.TheVariants as the_reach_error;

use crate::bytes_there::bytes_at;
use crate::reach_error::ReachError;
use crate::spot::Spot;
use keep_docs::DocError;
use keep_names::{BlobId, BlobType, Id};
use keep_repo::Repo;
use keep_tree::{Node, NodeKind, TreeError, read_tree};
use std::alloc::{AllocError, Global};

/// A chosen listing of a blob, and what the blob names there, in its order.
#[derive(Drop)]
pub struct Named {
    pub spot: Spot,
    /// The least-named index that lists the blob there.
    pub index: Id,
    pub names: Vec<BlobId>,
}

/// What a blob of this type at the spot names.
pub(crate) fn names_at(
    alloc: Global,
    repo: &Repo,
    blob_type: BlobType,
    spot: Spot,
) -> Result<Vec<BlobId>, ReachError>
    ensures { Answers the_reach_error.Memory (λ names. names.items)
        (spec.names_at repo.now blob_type spot) result }
{
    match blob_type {
        BlobType::Content => Ok(Vec::new(alloc)),
        BlobType::Tree => {
            let nodes = nodes_at(alloc, repo, spot)?;
            Ok(named_blobs(alloc, &nodes)?)
        }
    }
}

/// The nodes of the tree at the spot.
pub(crate) fn nodes_at(alloc: Global, repo: &Repo, spot: Spot) -> Result<Vec<Node>, ReachError>
    ensures { Answers the_reach_error.Memory (λ nodes. map node_view nodes.items)
        (spec.nodes_at_spot repo.now spot) result }
{
    match bytes_at(repo, spot) {
        Some(bytes) => nodes_in(alloc, bytes),
        None => Err(ReachError::BadTree),
    }
}

/// The nodes that the bytes of a tree hold.
fn nodes_in(alloc: Global, bytes: &[u8]) -> Result<Vec<Node>, ReachError>
    ensures { Answers the_reach_error.Memory (λ nodes. map node_view nodes.items)
        (nodes_read (read_tree_of bytes.now)) result }
{
    match read_tree(alloc, bytes) {
        Ok(tree) => Ok(tree.nodes),
        Err(refusal) => {
            if is_memory(refusal) {
                return Err(ReachError::Memory);
            }
            Err(ReachError::BadTree)
        }
    }
}

fn is_memory(refusal: TreeError) -> bool
    ensures { IsTrue result ↔ (refusal ≡ the_tree_error.Doc the_doc_error.Memory) }
{
    matches!(refusal, TreeError::Doc(DocError::Memory))
}

/// What nodes name, in their order.
fn named_blobs(alloc: Global, nodes: &[Node]) -> Result<Vec<BlobId>, AllocError>
    ensures { IfOk result (λ names. names.items ≡ flat_map named_of (map node_view nodes.now)) }
{
    let mut names = Vec::new(alloc);
    for node in nodes {
        add_named(&mut names, &node.kind)?;
    }
    Ok(names)
}

/// Adds what a node of this kind names.
fn add_named(names: &mut Vec<BlobId>, kind: &NodeKind) -> Result<(), AllocError>
    ensures { OnOk result (names.new.items ≡ names.old.items ++ named_in (kind_view kind.now)) }
{
    match kind {
        NodeKind::Dir { subtree } => {
            names.push(BlobId::tree(*subtree))?;
            Ok(())
        }
        NodeKind::File { content } => add_pieces(names, content),
        NodeKind::Other { type_name: _ } => Ok(()),
    }
}

/// Adds the pieces of a file.
fn add_pieces(names: &mut Vec<BlobId>, content: &[Id]) -> Result<(), AllocError>
    ensures { OnOk result (names.new.items ≡ names.old.items ++ map piece_of content.now) }
{
    for id in content {
        names.push(BlobId::content(*id))?;
    }
    Ok(())
}
