use crate::stat::Moment;
use keep_names::Id;
use keep_patterns::Pattern;
use std::collections::HashMap;

/// A file as an earlier backup has it.
#[derive(Drop)]
pub struct Known {
    pub size: u64,
    pub mtime: Moment,
    /// Its blobs, which are stored.
    pub content: Vec<Id>,
}

/// What is to be taken.
#[derive(Drop)]
pub struct Scope {
    /// What is taken, with all below it, and the folders that lead there. The empty path is all.
    pub paths: Vec<String>,
    /// What isn't taken, with all below it: what one of them matches by its path below the root.
    pub excludes: Vec<Pattern>,
    /// The files of an earlier backup, by path. One that has the size and the time of one of them isn't read.
    pub known: HashMap<String, Known>,
}
