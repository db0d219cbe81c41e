/// An instant: seconds since 1970-01-01T00:00:00Z, which may be below 0, and nanoseconds from there on.
#[derive(Clone, Copy, Debug, PartialEq, Eq)]
pub struct Moment {
    pub seconds: i64,
    /// Below 1,000,000,000.
    pub nanoseconds: u32,
}

/// What stands at a path.
#[derive(Drop)]
pub enum StatKind {
    /// A regular file.
    File,
    Folder,
    /// A symbolic link, with the text that it holds.
    Link(String),
    Fifo,
    Socket,
    /// A block device.
    Device,
    CharDevice,
}

/// What a look at a path tells, as POSIX's `lstat` does. No link is followed.
#[derive(Drop)]
pub struct Stat {
    pub kind: StatKind,
    /// The bits of `st_mode`, those of the kind too.
    pub mode: u32,
    pub mtime: Moment,
    pub ctime: Moment,
    pub uid: u32,
    pub gid: u32,
    /// The owner's name, if it is known.
    pub user: Option<String>,
    /// The group's name, if it is known.
    pub group: Option<String>,
    pub inode: u64,
    /// The number of the device on which it lies.
    pub device: u64,
    /// How many bytes a file holds.
    pub size: u64,
    /// How many names lead to it.
    pub links: u64,
    /// The number that a device stands for.
    pub stands_for: u64,
}
