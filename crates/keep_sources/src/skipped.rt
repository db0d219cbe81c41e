/// Why something isn't in a backup, or not as it was seen.
#[derive(Clone, Copy, Debug, PartialEq, Eq)]
pub enum Why {
    /// A permission is wanting.
    Denied,
    /// Nothing stands there any more.
    Gone,
    /// Something else stands there than what was seen.
    Replaced,
    /// So many names of a folder, or the text of a link, can't be said: they aren't UTF-8.
    Unsayable(u64),
    /// More than 256 folders lead there.
    TooDeep,
    /// The system failed, or memory ran out.
    Failed,
    /// A file had fewer bytes when it was read than when it was seen. It is in the backup as it was read.
    Shrank,
    /// A file had more bytes when it was read than when it was seen. It is in the backup as it was read.
    Grew,
}

/// What isn't in a backup, or not as it was seen.
#[derive(Drop)]
pub struct Skipped {
    /// Below the root of the source.
    pub path: String,
    pub why: Why,
}
