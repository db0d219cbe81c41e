use keep_rope::Rope;

/// What stands at a path.
#[derive(Drop)]
pub enum Node {
    Folder,
    /// A file that holds these bytes.
    File(Rope),
}
