ghost use Rattle.std.specs.Prelude.{◌≡◌, [], ◌∷◌, false};
ghost use Rattle.serde_json.specs.Written.{has_float};
ghost use Rattle.keep_tree.specs.Tree.{node_view};
ghost use Rattle.keep_tree.specs.Written.{tree_data};

use keep_tree::Node;

/// A node of a snapshot at its path. Entries are made of trees that were read.
#[derive(Drop)]
pub struct PathNode {
    /// `/` and the names from the root on, joined by `/`.
    pub path: String,
    pub node: Node,
    /// A document has no floating-point numbers, so that one text says what the node is.
    pub ghost whole: { has_float (tree_data (node_view node ∷ [])) ≡ false },
}
