ghost use Rattle.std.specs.Prelude.{◌≡◌, ◌∷◌, ◌++◌, [], IsTrue};
ghost use Rattle.keep_targets.specs.Call.{Append, MakeFile, MakeFolder, MakeLink, SetLinkOwner, SetMode, SetOwner, SetTimes, appended, ended};

use crate::attributes::{Owner, Times};
use crate::target_error::{Short, TargetError};

/// A new folder, the root, into which a restore writes.
///
/// A path has a slash before each name that leads from the root on; the root's is empty. What is made is new: where
/// something is, be it a link, nothing is made, and it stays as it is. The names on the way to the last one have to be of
/// folders: no link is followed. What is made is its owner's alone until its mode is set.
///
/// Each call is noted, and how it ended. One that is refused did nothing, but for `append`, which tells what it did.
pub trait Target: Drop {
    ghost use Rattle.std.specs.Prelude.{Bool, List};
    ghost use Rattle.keep_targets.specs.Call.{Call};

    /// What was asked of it, in order, and how it ended.
    ghost calls: { Self → List Call };

    /// Whether nothing was in the root when it was opened.
    ghost is_new: { Self → Bool };

    /// Whether nothing was in the root when it was opened.
    fn is_new(&self) -> bool
        ensures { result ≡ is_new self.now };

    /// Makes a folder.
    fn make_folder(&mut self, path: &str) -> Result<(), TargetError>
        ensures { calls self.new ≡ calls self.old ++ ended result (MakeFolder path.now) ∷ [] };

    /// Makes a file without bytes.
    fn make_file(&mut self, path: &str) -> Result<(), TargetError>
        ensures { calls self.new ≡ calls self.old ++ ended result (MakeFile path.now) ∷ [] };

    /// Writes bytes behind those that the file has. It was made by this target, and no other since.
    fn append(&mut self, path: &str, bytes: &[u8]) -> Result<(), Short>
        ensures { calls self.new ≡ calls self.old ++ appended result path.now bytes.now ∷ [] };

    /// Makes a symbolic link to what the text says, whatever it is.
    fn make_link(&mut self, path: &str, to: &str) -> Result<(), TargetError>
        ensures { calls self.new ≡ calls self.old ++ ended result (MakeLink path.now to.now) ∷ [] };

    /// Gives a file or folder to this owner.
    fn set_owner(&mut self, path: &str, owner: Owner) -> Result<(), TargetError>
        ensures { calls self.new ≡ calls self.old ++ ended result (SetOwner path.now owner) ∷ [] };

    /// Gives a link itself to this owner.
    fn set_link_owner(&mut self, path: &str, owner: Owner) -> Result<(), TargetError>
        ensures { calls self.new ≡ calls self.old ++ ended result (SetLinkOwner path.now owner) ∷ [] };

    /// Sets the mode of a file or folder: the low twelve bits of `st_mode`.
    fn set_mode(&mut self, path: &str, mode: u32) -> Result<(), TargetError>
        ensures { calls self.new ≡ calls self.old ++ ended result (SetMode path.now mode) ∷ [] };

    /// Sets the times of a file or folder.
    fn set_times(&mut self, path: &str, times: Times) -> Result<(), TargetError>
        ensures { calls self.new ≡ calls self.old ++ ended result (SetTimes path.now times) ∷ [] };
}
