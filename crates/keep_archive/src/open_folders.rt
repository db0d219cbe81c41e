ghost use Rattle.std.specs.Prelude.{◌≡◌, false, true, string_bytes};
ghost use Rattle.std.specs.List.{list_any};
ghost use Rattle.std.specs.Str.{bytes_eq};
ghost use Rattle.keep_tree.specs.Names as tree_names;
ghost use Rattle.keep_tree.specs.Tree.{names_of, tree_view};

use crate::archive_node::{kind_of_folder, node_of};
use crate::carried::Carried;
use crate::folder::Folder;
use keep_names::Id;
use keep_plan::PlanError;
use keep_tree::Node;
use std::alloc::{AllocError, Global};

/// A folder in which another one is open, and that one's name.
#[derive(Drop)]
pub(crate) struct Around {
    pub(crate) name: String,
    pub(crate) folder: Folder,
    pub ghost named: { tree_names.is_name (string_bytes name) ≡ true },
    pub ghost apart: { list_any (bytes_eq (string_bytes name)) (names_of (tree_view folder.tree)) ≡ false },
}

/// Where nodes are given.
#[derive(Drop)]
pub(crate) struct OpenFolders {
    /// The folders around, from the root on.
    pub(crate) around: Vec<Around>,
    /// The one that is open.
    pub(crate) folder: Folder,
}

impl OpenFolders {
    ghost use Rattle.std.specs.Prelude.{[], ◌∷◌, ◌++◌, ◌<◌, IfOk, List, length};
    ghost use Rattle.std.specs.Option.{option_or};
    ghost use Rattle.std.specs.Vec.{vec_len};
    ghost use Rattle.keep_tree.specs.Shape.{IsNode};
    ghost use Rattle.keep_tree.specs.Tree.{dir, node_view};
    ghost use Rattle.keep_archive.specs.Archive.{AroundData, carried_view, folder_view, place_view};
    ghost use Rattle.keep_archive.specs.Steps.{deep_refusal, has_name, name_refusal, opened, root_refusal, with_node};

    /// An empty root is open.
    pub(crate) fn new(alloc: Global) -> OpenFolders
        ensures { place_view result ≡ record { around = []; nodes = [] } }
    {
        OpenFolders {
            around: Vec::new(alloc),
            folder: Folder::new(alloc),
        }
    }

    /// Why no folder of this name can be opened.
    pub(crate) fn opening_refusal(&self, name: &String) -> Option<PlanError>
        ensures { result ≡ option_or (name_refusal (string_bytes name.now) (place_view self.now).nodes)
            (deep_refusal (place_view self.now)) }
    {
        if let Some(refusal) = self.folder.refusal(name) {
            return Some(refusal);
        }
        if self.around.len() >= 255 {
            return Some(PlanError::TooDeep);
        }
        None
    }

    /// With an empty folder of this name open.
    pub(crate) fn open(self, alloc: Global, name: String) -> Result<OpenFolders, AllocError>
        requires named { tree_names.is_name (string_bytes name) ≡ true }
        requires apart { has_name (place_view self).nodes (string_bytes name) ≡ false }
        ensures { IfOk result (λ place. place_view place ≡ opened (string_bytes name) (place_view self)) }
    {
        let OpenFolders { mut around, folder } = self;
        around.push(Around { name, folder })?;
        Ok(OpenFolders {
            around,
            folder: Folder::new(alloc),
        })
    }

    /// Why the folder can't be closed: it is the root.
    pub(crate) fn closing_refusal(&self) -> Option<PlanError>
        ensures { result ≡ root_refusal (place_view self.now) }
    {
        if self.around.is_empty() {
            return Some(PlanError::BadPath);
        }
        None
    }

    /// With the folder closed, whose tree has this id. The root stays open.
    pub(crate) fn close(self, subtree: Id, others: Carried) -> Result<OpenFolders, AllocError>
        requires { 0 < vec_len self.around }
        ensures { IfOk result (λ place. (outer : List AroundData) × (around : AroundData)
            × ((place_view self).around ≡ outer ++ around ∷ [])
            × (place_view place ≡ record {
              around = outer;
              nodes = around.nodes ++ record {
                name = around.name;
                kind = dir subtree;
                others = carried_view others;
              } ∷ [];
            })) }
    {
        let OpenFolders { mut around, folder } = self;
        let Some(last) = around.pop() else {
            return Ok(OpenFolders { around, folder });
        };
        let Around { name, folder } = last;
        let node = node_of(name, kind_of_folder(subtree), others);
        let folder = folder.with(node)?;
        Ok(OpenFolders { around, folder })
    }

    /// With one more node.
    pub(crate) fn add(self, node: Node) -> Result<OpenFolders, AllocError>
        requires stands { ∥ IsNode (node_view node) ∥₁ }
        requires apart { has_name (place_view self).nodes (string_bytes node.name) ≡ false }
        ensures { IfOk result (λ place. place_view place ≡ with_node (node_view node) (place_view self)) }
    {
        let OpenFolders { around, folder } = self;
        let folder = folder.with(node)?;
        Ok(OpenFolders { around, folder })
    }
}
