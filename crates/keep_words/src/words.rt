use crate::command::Command;

/// What the words behind the program's name say.
#[derive(Drop)]
pub struct Words<'a> {
    /// The repository's folder, where the words name it. It isn't empty.
    pub repo: Option<&'a str>,
    /// Whether the answer is one JSON document.
    pub json: bool,
    /// How many seconds to wait for the folder's lock.
    pub wait: u64,
    pub command: Command<'a>,
}
