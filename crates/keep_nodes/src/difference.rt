use crate::PathNode;

/// How a path of two snapshots differs.
#[derive(Clone, Copy)]
pub enum Difference<'a> {
    /// The second has a node there, and the first none.
    Added(&'a PathNode),
    /// The first has a node there, and the second none.
    Removed(&'a PathNode),
    /// Both have one, of another kind, or with other content or other members.
    Changed {
        old: &'a PathNode,
        new: &'a PathNode,
    },
}
