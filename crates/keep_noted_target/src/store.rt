use keep_targets::{Owner, Short, TargetError, Times};

/// Calls that make and set files, folders and links, as those of a file system. What they do is what `Target` says of the
/// calls of these names; nothing of it is stated here, as no contract can say what a disk holds.
pub trait Store: Drop {
    fn make_folder(&mut self, path: &str) -> Result<(), TargetError>;

    fn make_file(&mut self, path: &str) -> Result<(), TargetError>;

    fn append(&mut self, path: &str, bytes: &[u8]) -> Result<(), Short>;

    fn make_link(&mut self, path: &str, to: &str) -> Result<(), TargetError>;

    fn set_owner(&mut self, path: &str, owner: Owner) -> Result<(), TargetError>;

    fn set_link_owner(&mut self, path: &str, owner: Owner) -> Result<(), TargetError>;

    fn set_mode(&mut self, path: &str, mode: u32) -> Result<(), TargetError>;

    fn set_times(&mut self, path: &str, times: Times) -> Result<(), TargetError>;
}
