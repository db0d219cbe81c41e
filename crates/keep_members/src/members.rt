use crate::stamp::Stamp;

/// What a node says beside its name and what it is.
#[derive(Drop)]
pub struct Members {
    /// The bits of Go's os.FileMode, as [`go_mode`](crate::go_mode) tells them. Not written where 0.
    pub mode: u32,
    pub mtime: Stamp,
    pub atime: Stamp,
    pub ctime: Stamp,
    pub uid: u32,
    pub gid: u32,
    /// The user's name, where the number has one.
    pub user: Option<String>,
    pub group: Option<String>,
    /// Not written where 0.
    pub inode: u64,
    /// The device that the node lies on. Not written where 0.
    pub device_id: u64,
    /// The bytes of a file; restic says 0 of what is none. Not written where 0.
    pub size: u64,
    /// How many names there are; restic says 0 of folders, fifos and sockets. Not written where 0.
    pub links: u64,
    /// Where a symbolic link leads.
    pub link_target: Option<String>,
    /// The device that the node is, 0 where it is none. Not written where 0.
    pub device: u64,
}
