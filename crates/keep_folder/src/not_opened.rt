use keep_files::TreeError;

/// A tree that isn't opened as a shelf, and why. It is handed back.
#[derive(Drop)]
pub struct NotOpened<T> {
    pub tree: T,
    pub error: TreeError,
}
