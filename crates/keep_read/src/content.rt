/// What stands at a path below a tree.
#[derive(Drop)]
pub(crate) struct Content {
    pub(crate) path: String,
    /// The bytes of a file, and none of a node that is skipped.
    pub(crate) bytes: Option<Vec<u8>>,
}
