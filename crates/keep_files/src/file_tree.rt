ghost use Rattle.std.specs.Prelude.{◌≡◌, ◌≢◌, ◌↔◌, ℕ, IfErr, IfOk, IsTrue, List, OnOk, OnErr, is_some};
ghost use Rattle.keep_files.specs.Act.{CanDo, HasFailed, Made, Removed, Renamed, Synced, Wrote, done, failed};
ghost use Rattle.keep_files.specs.Path.{IsHeldIn, IsListed};
ghost use Rattle.keep_files.specs.Stands.{is_file, is_folder};
ghost use Rattle.keep_files.specs.declared.tree_error.TreeError.TheVariants as the_error;

use crate::node::Node;
use crate::tree_error::TreeError;
use keep_rope::Rope;

/// The files and folders below a root, which is always there.
///
/// A path has the names on it, with a slash between two of them, and the root's path is empty. Each act is one step: it
/// is done whole or not at all, also where the program stops in the middle of it; but of a file that is being written
/// a part may stand then. Of a call that fails it is known that it did nothing, but for an act that answers `Unknown`.
/// Each call that fails is counted. Want of memory is a failure like any other.
pub trait FileTree: Drop {
    ghost use Rattle.keep_files.specs.Act.{Seen};

    /// What contracts see of a tree.
    ghost seen: { Self → Seen };

    /// What stands at the path, if anything does.
    fn read(&mut self, path: &str) -> Result<Option<Node>, TreeError>
        ensures found { IfOk result (λ found. found ≡ (seen self.old).stands path.now) }
        ensures ok { OnOk result (seen self.new ≡ seen self.old) }
        ensures err { OnErr result (seen self.new ≡ failed (seen self.old)) }
        ensures told { result ≢ Err the_error.Unknown };

    /// Whether a folder stands at the path.
    fn has_folder(&mut self, path: &str) -> Result<bool, TreeError>
        ensures found { IfOk result (λ found. found ≡ is_folder ((seen self.old).stands path.now)) }
        ensures ok { OnOk result (seen self.new ≡ seen self.old) }
        ensures err { OnErr result (seen self.new ≡ failed (seen self.old)) }
        ensures told { result ≢ Err the_error.Unknown };

    /// The paths of what lies right in the folder, which may be the root.
    fn list(&mut self, folder: &str) -> Result<Vec<String>, TreeError>
        ensures listed { IfOk result (λ found. (path : List ℕ) → IsListed found.items path
            ↔ (IsTrue (is_some ((seen self.old).stands path)) × IsHeldIn path folder.now)) }
        ensures ok { OnOk result (seen self.new ≡ seen self.old) }
        ensures err { OnErr result (seen self.new ≡ failed (seen self.old)) }
        ensures told { result ≢ Err the_error.Unknown };

    /// Writes a new file. Its bytes outlast a loss of power, and its name does once its folder is synced.
    fn write_new(&mut self, path: &str, bytes: &Rope) -> Result<(), TreeError>
        ensures can { OnOk result (CanDo (seen self.old).stands (Wrote path.now bytes.now)) }
        ensures ok { OnOk result (seen self.new ≡ done (seen self.old) (Wrote path.now bytes.now)) }
        ensures err { IfErr result (λ error.
            HasFailed (seen self.old) (Wrote path.now bytes.now) error (seen self.new)) };

    /// Puts a file at another path, in the place of the file that stands there.
    fn rename(&mut self, from: &str, to: &str) -> Result<(), TreeError>
        requires file { IsTrue (is_file ((seen self.old).stands from.now)) }
        requires apart { from.now ≢ to.now }
        ensures can { OnOk result (CanDo (seen self.old).stands (Renamed from.now to.now)) }
        ensures ok { OnOk result (seen self.new ≡ done (seen self.old) (Renamed from.now to.now)) }
        ensures err { IfErr result (λ error.
            HasFailed (seen self.old) (Renamed from.now to.now) error (seen self.new)) };

    /// Takes away the file at the path. Where nothing stands, there is nothing to do.
    fn remove(&mut self, path: &str) -> Result<(), TreeError>
        ensures can { OnOk result (CanDo (seen self.old).stands (Removed path.now)) }
        ensures ok { OnOk result (seen self.new ≡ done (seen self.old) (Removed path.now)) }
        ensures err { IfErr result (λ error.
            HasFailed (seen self.old) (Removed path.now) error (seen self.new)) };

    /// Makes a folder where nothing stands. Its name outlasts a loss of power once its folder is synced.
    fn make_folder(&mut self, path: &str) -> Result<(), TreeError>
        ensures can { OnOk result (CanDo (seen self.old).stands (Made path.now)) }
        ensures ok { OnOk result (seen self.new ≡ done (seen self.old) (Made path.now)) }
        ensures err { IfErr result (λ error.
            HasFailed (seen self.old) (Made path.now) error (seen self.new)) };

    /// Has the names in a folder outlast a loss of power, be it the root or another one.
    fn sync_folder(&mut self, path: &str) -> Result<(), TreeError>
        ensures ok { OnOk result (seen self.new ≡ done (seen self.old) (Synced path.now)) }
        ensures err { OnErr result (seen self.new ≡ failed (seen self.old)) }
        ensures told { result ≢ Err the_error.Unknown };
}
