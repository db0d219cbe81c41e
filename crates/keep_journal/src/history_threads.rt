use crate::history::History;

/// A history can be handed to another thread, and lent to several at once.
pub fn histories_cross_threads() {
    cross::<History>()
}

/// What can be handed to another thread, and lent to several at once.
fn cross<T: Send + Sync>() {}
