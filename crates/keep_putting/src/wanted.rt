use keep_names::Id;
use keep_targets::{Owner, Times};

/// What is to stand at a path.
#[derive(Drop)]
pub enum What {
    Folder,
    /// A file of these pieces, in order.
    File(Vec<Id>),
    /// A symbolic link to what the text says.
    Link(String),
    /// Of another type, as a fifo, a device or a socket, or a link that doesn't say where to.
    Other,
}

/// What a snapshot has at a path, and what of it is to be set.
#[derive(Drop)]
pub struct Wanted {
    /// A slash before each name on the way from the root, as trees spell names.
    pub path: String,
    /// The last of these names as files have it. None where it isn't UTF-8, or isn't spelt as trees spell.
    pub name: Option<String>,
    pub what: What,
    pub owner: Option<Owner>,
    /// The low twelve bits of `st_mode`.
    pub mode: Option<u32>,
    pub times: Option<Times>,
}
