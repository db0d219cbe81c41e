ghost use Rattle.std.specs.Prelude.{◌≡◌, ◌↔◌, IfOk, IsTrue, map, option_map};
ghost use Rattle.keep_catalog.specs.declared.reach_error.ReachError.TheVariants.{Memory};
ghost use Rattle.keep_names.specs.BlobId.{piece_of, tree_at};
ghost use Rattle.keep_tree.specs.Tree.{node_view};
ghost use Rattle.keep_read.specs.Contents as spec;
ghost use Rattle.keep_read.specs.Found.{ArePlaced, IsPlaced};

use keep_catalog::{Catalog, ReachError};
use keep_names::{BlobId, Id};
use keep_reach::Reached;
use keep_tree::Node;
use std::alloc::{AllocError, Global};

/// The nodes of a tree that was found.
pub(crate) fn nodes_in(
    alloc: Global,
    catalog: &Catalog,
    reached: &Reached,
    tree: Id,
) -> Result<Vec<Node>, AllocError>
    requires { IsPlaced catalog.now reached.now (tree_at tree) }
    ensures { IfOk result (λ nodes. map node_view nodes.items ≡ spec.nodes_in catalog.now tree) }
{
    let Some(found) = reached.get(&BlobId::tree(tree)) else {
        return Ok(Vec::new(alloc));
    };
    match catalog.nodes_at(alloc, found.spot) {
        Ok(nodes) => Ok(nodes),
        Err(why) => {
            if is_memory(why) {
                return Err(AllocError);
            }
            Ok(Vec::new(alloc))
        }
    }
}

fn is_memory(why: ReachError) -> bool
    ensures { IsTrue result ↔ (why ≡ Memory) }
{
    matches!(why, ReachError::Memory)
}

/// The pieces of a file, joined in their order.
#[tactic(auto, unfolding(crate::specs::Contents::joined))]
pub(crate) fn joined(
    alloc: Global,
    catalog: &Catalog,
    reached: &Reached,
    content: &[Id],
) -> Result<Vec<u8>, AllocError>
    requires { ArePlaced catalog.now reached.now (map piece_of content.now) }
    ensures { IfOk result (λ bytes. bytes.items ≡ spec.joined catalog.now content.now) }
{
    let mut joined = Vec::new(alloc);
    for piece in content {
        joined.extend_from_slice(piece_bytes(catalog, reached, *piece))?;
    }
    Ok(joined)
}

/// The bytes of a piece that was found.
fn piece_bytes<'a>(catalog: &'a Catalog, reached: &Reached, piece: Id) -> &'a [u8]
    requires { IsPlaced catalog.now reached.now (piece_of piece) }
    ensures { result.now ≡ spec.piece_bytes catalog.entry.now piece }
{
    bytes_of(catalog, reached, BlobId::content(piece)).unwrap_or(&[])
}

/// The bytes of a blob that was found.
fn bytes_of<'a>(catalog: &'a Catalog, reached: &Reached, blob: BlobId) -> Option<&'a [u8]>
    requires { IsPlaced catalog.now reached.now blob }
    ensures { option_map (λ bytes. bytes.now) result ≡ spec.bytes_of catalog.entry.now blob }
{
    let found = reached.get(&blob)?;
    catalog.bytes_at(found.spot)
}
