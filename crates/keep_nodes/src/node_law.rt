ghost use Rattle.std.specs.Prelude.{◌≡◌, true};
ghost use Rattle.keep_tree.specs.Shape.{IsNode};
ghost use Rattle.keep_tree.specs.Tree.{NodeData};
ghost use Rattle.keep_nodes.specs.Differences.{is_same};

/// Nodes that a tree can hold and that are written alike are one, so no difference between them is overlooked.
pub fn nodes_that_are_written_alike_are_one()
    ensures { (a b : NodeData) → IsNode a → IsNode b → is_same a b ≡ true → a ≡ b }
{}
