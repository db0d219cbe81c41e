use keep_targets::{Owner, Times};

/// What is at a place.
#[derive(Drop)]
pub(crate) enum Kind {
    Folder,
    File(Vec<u8>),
    Link(String),
}

/// What is at a place, and what was set of it.
#[derive(Drop)]
pub(crate) struct Thing {
    pub(crate) kind: Kind,
    pub(crate) mode: u32,
    pub(crate) owner: Option<Owner>,
    pub(crate) times: Option<Times>,
}

impl Thing {
    pub(crate) fn new(kind: Kind, mode: u32) -> Thing {
        Thing {
            kind,
            mode,
            owner: None,
            times: None,
        }
    }
}
