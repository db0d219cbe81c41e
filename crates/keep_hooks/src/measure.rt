/// What a watch counts of an event.
#[derive(Clone, Copy, PartialEq, Eq)]
pub enum Measure {
    /// One.
    Events,
    /// The files that its change adds and drops, also where it is taken back. An emptying has none.
    FilesWritten,
    /// The snapshots that it drops, if it is a commit or a redo, else none.
    SnapshotsDropped,
}
