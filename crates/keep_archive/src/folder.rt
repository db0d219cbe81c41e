ghost use Rattle.std.specs.Prelude.{◌≡◌, List, string_bytes};
ghost use Rattle.std.specs.BTreeSet.{contains};
ghost use Rattle.std.specs.Global.{Global};
ghost use Rattle.std.specs.List.{list_any};
ghost use Rattle.std.specs.Str.{bytes_eq};
ghost use Rattle.std.specs.String.{string_cmp};
ghost use Rattle.std.specs.declared.string.String as the_string;
ghost use Rattle.keep_tree.specs.Shape.{IsTree};
ghost use Rattle.keep_tree.specs.Tree.{names_of, tree_view};

use keep_plan::PlanError;
use keep_tree::{Node, Tree, is_name, write_tree};
use std::alloc::{AllocError, Global};
use std::collections::BTreeSet;

/// What a folder has so far.
#[derive(Drop)]
pub(crate) struct Folder {
    pub(crate) tree: Tree,
    /// The names of its nodes.
    pub(crate) names: BTreeSet<String>,
    pub ghost stands: { ∥ IsTree (tree_view tree) ∥₁ },
    pub ghost known: { (name : the_string.String Global) → contains string_cmp names name
        ≡ list_any (bytes_eq (string_bytes name)) (names_of (tree_view tree)) },
}

impl Folder {
    ghost use Rattle.std.specs.Prelude.{[], ◌∷◌, ◌++◌, IfOk, false, option_map};
    ghost use Rattle.keep_names.specs.declared.blob.BlobType.TheVariants as the_type;
    ghost use Rattle.keep_tree.specs.Shape.{IsNode};
    ghost use Rattle.keep_tree.specs.Tree.{node_view};
    ghost use Rattle.keep_build.specs.Blobs.{tree_blob};
    ghost use Rattle.keep_archive.specs.Archive.{folder_view};
    ghost use Rattle.keep_archive.specs.Steps.{has_name, name_refusal};

    /// No node yet.
    pub(crate) fn new(alloc: Global) -> Folder
        ensures { folder_view result ≡ [] }
    {
        Folder {
            tree: Tree {
                nodes: Vec::new(alloc),
            },
            names: BTreeSet::new(alloc),
        }
    }

    /// Why no node of this name can come beside the others.
    pub(crate) fn refusal(&self, name: &String) -> Option<PlanError>
        ensures { result ≡ name_refusal (string_bytes name.now) (folder_view self.now) }
    {
        if !is_name(name.as_str()) {
            return Some(PlanError::BadPath);
        }
        if self.names.contains(name) {
            return Some(PlanError::SamePathTwice);
        }
        None
    }

    /// With one more node.
    pub(crate) fn with(self, node: Node) -> Result<Folder, AllocError>
        requires stands { ∥ IsNode (node_view node) ∥₁ }
        requires apart { has_name (folder_view self) (string_bytes node.name) ≡ false }
        ensures { IfOk result (λ folder.
            folder_view folder ≡ folder_view self ++ node_view node ∷ []) }
    {
        let Folder {
            mut tree,
            mut names,
        } = self;
        let name = node.name.clone()?;
        names.insert(name)?;
        tree.nodes.push(node)?;
        Ok(Folder { tree, names })
    }

    /// The text of its tree.
    pub(crate) fn tree_text(&self, alloc: Global) -> Result<Vec<u8>, AllocError>
        ensures { IfOk result (λ text. (the_type.Tree, text.items) ≡ tree_blob (folder_view self.now)) }
    {
        write_tree(alloc, &self.tree)
    }
}
