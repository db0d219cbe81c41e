ghost use Rattle.std.specs.Prelude.{◌≡◌, ◌≢◌, true, All, IfOk, codes, string_bytes};
ghost use Rattle.keep_names.specs.Id.{IsDigest};
ghost use Rattle.keep_tree.specs.Shape.{IsKind, IsNode};
ghost use Rattle.keep_tree.specs.Names.{is_name};
ghost use Rattle.keep_tree.specs.Tree.{dir, file, kind_view, node_view, other};
ghost use Rattle.keep_archive.specs.Archive.{carried_view};

use crate::carried::Carried;
use keep_names::{Id, text_names_id};
use keep_tree::{Node, NodeKind};
use std::alloc::{AllocError, Global};

/// The node of this name and kind that carries these members.
pub(crate) fn node_of(name: String, kind: NodeKind, others: Carried) -> Node
    requires named { is_name (string_bytes name) ≡ true }
    requires kind { IsKind (kind_view kind) }
    ensures node { node_view result ≡ record {
      name = string_bytes name;
      kind = kind_view kind;
      others = carried_view others;
    } }
    ensures stands { ∥ IsNode (node_view result) ∥₁ }
{
    let Carried { members } = others;
    Node {
        name,
        kind,
        others: members,
    }
}

/// A folder with this tree.
pub(crate) fn kind_of_folder(subtree: Id) -> NodeKind
    ensures kind { kind_view result ≡ dir subtree }
    ensures stands { IsKind (kind_view result) }
{
    text_names_id(subtree, subtree);
    NodeKind::Dir { subtree }
}

/// A file with these pieces.
pub(crate) fn kind_of_file(alloc: Global, content: &[Id]) -> Result<NodeKind, AllocError>
    ensures kind { IfOk result (λ kind. kind_view kind ≡ file content.now) }
    ensures stands { IfOk result (λ kind. IsKind (kind_view kind)) }
{
    let mut ids = Vec::with_capacity(alloc, content.len())?;
    for id in content {
        text_names_id(*id, *id);
        ids.push(*id)?;
    }
    Ok(NodeKind::File { content: ids })
}

/// A node of another type.
pub(crate) fn kind_of_other(type_name: String) -> NodeKind
    requires folder { string_bytes type_name ≢ codes "dir" }
    requires file { string_bytes type_name ≢ codes "file" }
    ensures kind { kind_view result ≡ other (string_bytes type_name) }
    ensures stands { IsKind (kind_view result) }
{
    NodeKind::Other { type_name }
}
