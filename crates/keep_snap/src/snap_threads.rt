use crate::snap::Snap;

/// A snapshot can be handed to another thread, and lent to several at once.
pub fn snaps_cross_threads() {
    cross::<Snap>()
}

/// What can be handed to another thread, and lent to several at once.
fn cross<T: Send + Sync>() {}
