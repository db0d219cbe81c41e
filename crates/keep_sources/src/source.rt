ghost use Rattle.std.specs.Prelude.{◌≤◌, IfErr, IfOk, length, take};

use crate::skipped::Why;
use crate::stat::Stat;

/// What lies in a folder.
#[derive(Drop)]
pub struct FolderListing {
    /// In the order of their bytes, and none twice.
    pub names: Vec<String>,
    /// How many more names there are, which aren't UTF-8.
    pub unsayable: u64,
}

/// What is backed up: files, folders and what else stands below a root, which may change at any time.
///
/// A path has the names on it, with a slash between two of them, and the root's path is empty. What a call answers is
/// noted in `told`. Nothing else is known of it, so whoever hands something on as told has it from a call.
pub trait Source: Drop {
    ghost use Rattle.keep_sources.specs.Told.{Told};

    /// What the calls answered.
    ghost told: { Told };

    /// What stands at the path. A link isn't followed.
    fn look(&mut self, path: &str) -> Result<Stat, Why>
        ensures seen { IfOk result (λ sight. told.saw path.now sight) }
        ensures lost { IfErr result (λ why. told.lost path.now why) };

    /// What lies in the folder that was seen. Where something else stands there now it is `Replaced`.
    fn list(&mut self, folder: &str, seen: &Stat) -> Result<FolderListing, Why>
        ensures listed { IfOk result (λ listing. told.listed folder.now listing) }
        ensures lost { IfErr result (λ why. told.lost folder.now why) };

    /// Opens the file that was seen, to be read. Where something else stands there now it is `Replaced`.
    fn open(&mut self, path: &str, seen: &Stat) -> Result<(), Why>
        ensures lost { IfErr result (λ why. told.lost path.now why) };

    /// Reads bytes of the file of this path that was opened last, from an offset on. At its end it is none.
    fn read(&mut self, path: &str, offset: u64, piece: &mut [u8]) -> Result<usize, Why>
        ensures fits { IfOk result (λ count. count ≤ length piece.new) }
        ensures read { IfOk result (λ count. told.read path.now offset (take count piece.new)) }
        ensures lost { IfErr result (λ why. told.lost path.now why) };
}
