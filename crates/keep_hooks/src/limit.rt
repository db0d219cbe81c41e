/// Which events a veto refuses.
#[derive(Clone, Copy, Debug, PartialEq, Eq)]
pub enum Limit {
    /// The commits and redos that drop more snapshots than this.
    SnapshotDropsAtMost(u64),
    /// The commits and redos that add and drop more files than this, both together.
    FilesWrittenAtMost(u64),
    /// Each emptying of the trash.
    NoEmpty,
}
