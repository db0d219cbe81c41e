use keep_names::Id;
use keep_snap::Snap;

/// A snapshot of a repository, as it is listed.
#[derive(Clone, Copy)]
pub struct ListedSnapshot<'a> {
    pub id: Id,
    /// Nanoseconds since 1970-01-01T00:00:00Z.
    pub instant: i128,
    pub snap: &'a Snap,
    /// The number of the last change in force that added it and isn't final, if there is one.
    pub change: Option<u64>,
}
