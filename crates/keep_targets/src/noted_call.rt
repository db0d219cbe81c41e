use crate::attributes::{Owner, Times};
use crate::target_error::{Short, TargetError};

/// A call of a target and how it ended, as a target notes it.
#[derive(Drop)]
pub enum NotedCall {
    MakeFolder(String),
    MakeFile(String),
    Append(String, Vec<u8>),
    MakeLink(String, String),
    SetOwner(String, Owner),
    SetLinkOwner(String, Owner),
    SetMode(String, u32),
    SetTimes(String, Times),
    Refuse(TargetError),
    Stop(String, Vec<u8>, Short),
}
