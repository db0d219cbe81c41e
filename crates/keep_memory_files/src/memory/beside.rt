//! The acts of a tree in memory beside which a store does the same. It is asked once all is made for which memory may be
//! wanting, and what it can't do isn't done here.
ghost use Rattle.std.specs.Prelude.{◌≡◌, ◌≢◌, Err, Ok, IsTrue, OnOk, OnErr, is_some};
ghost use Rattle.keep_files.specs.Act.{CanDo, Made, Removed, Renamed, Synced, Wrote, done, failed};
ghost use Rattle.keep_files.specs.Stands.{is_file};
ghost use Rattle.keep_files.specs.declared.tree_error.TreeError.TheVariants as the_error;

use super::MemoryTree;
use keep_files::TreeError;
use keep_rope::Rope;

impl MemoryTree {
    ghost use Rattle.keep_memory_files.specs.Memory.{seen_in};

    /// Writes a new file, and has `store` write it where files are kept beside.
    pub fn write_new_with<F: FnOnce() -> Result<(), TreeError> + Drop>(
        &mut self,
        path: &str,
        bytes: &Rope,
        store: F,
    ) -> Result<(), TreeError>
        requires { F.pre store }
        ensures stored { OnOk result (F.post store (Ok tt)) }
        ensures can { OnOk result (CanDo (seen_in self.old).stands (Wrote path.now bytes.now)) }
        ensures ok { OnOk result
            (seen_in self.new ≡ done (seen_in self.old) (Wrote path.now bytes.now)) }
        ensures err { OnErr result (seen_in self.new ≡ failed (seen_in self.old)) }
    {
        match self.try_write_new(path, bytes, store) {
            Ok(()) => Ok(()),
            Err(error) => Err(self.fail(error)),
        }
    }

    /// Puts a file at another path, and has `store` do the same where files are kept beside.
    pub fn rename_with<F: FnOnce() -> Result<(), TreeError> + Drop>(
        &mut self,
        from: &str,
        to: &str,
        store: F,
    ) -> Result<(), TreeError>
        requires file { IsTrue (is_file ((seen_in self.old).stands from.now)) }
        requires apart { from.now ≢ to.now }
        requires callable { F.pre store }
        ensures stored { OnOk result (F.post store (Ok tt)) }
        ensures can { OnOk result (CanDo (seen_in self.old).stands (Renamed from.now to.now)) }
        ensures ok { OnOk result
            (seen_in self.new ≡ done (seen_in self.old) (Renamed from.now to.now)) }
        ensures err { OnErr result (seen_in self.new ≡ failed (seen_in self.old)) }
    {
        match self.try_rename(from, to, store) {
            Ok(()) => Ok(()),
            Err(error) => Err(self.fail(error)),
        }
    }

    /// Takes away the file at the path, and has `store` take it away where files are kept beside. Where nothing stands at the
    /// path, `store` isn't asked.
    pub fn remove_with<F: FnOnce() -> Result<(), TreeError> + Drop>(
        &mut self,
        path: &str,
        store: F,
    ) -> Result<(), TreeError>
        requires { F.pre store }
        ensures stored { OnOk result
            (IsTrue (is_some ((seen_in self.old).stands path.now)) → F.post store (Ok tt)) }
        ensures can { OnOk result (CanDo (seen_in self.old).stands (Removed path.now)) }
        ensures ok { OnOk result
            (seen_in self.new ≡ done (seen_in self.old) (Removed path.now)) }
        ensures err { OnErr result (seen_in self.new ≡ failed (seen_in self.old)) }
    {
        match self.try_remove(path, store) {
            Ok(()) => Ok(()),
            Err(error) => Err(self.fail(error)),
        }
    }

    /// Makes a folder, and has `store` make it where files are kept beside.
    pub fn make_folder_with<F: FnOnce() -> Result<(), TreeError> + Drop>(
        &mut self,
        path: &str,
        store: F,
    ) -> Result<(), TreeError>
        requires { F.pre store }
        ensures stored { OnOk result (F.post store (Ok tt)) }
        ensures can { OnOk result (CanDo (seen_in self.old).stands (Made path.now)) }
        ensures ok { OnOk result
            (seen_in self.new ≡ done (seen_in self.old) (Made path.now)) }
        ensures err { OnErr result (seen_in self.new ≡ failed (seen_in self.old)) }
    {
        match self.try_make_folder(path, store) {
            Ok(()) => Ok(()),
            Err(error) => Err(self.fail(error)),
        }
    }

    /// Has `store` sync the names in a folder where files are kept beside. Here nothing is to do.
    pub fn sync_folder_with<F: FnOnce() -> Result<(), TreeError> + Drop>(
        &mut self,
        path: &str,
        store: F,
    ) -> Result<(), TreeError>
        requires { F.pre store }
        ensures stored { OnOk result (F.post store (Ok tt)) }
        ensures can { OnOk result (CanDo (seen_in self.old).stands (Synced path.now)) }
        ensures ok { OnOk result
            (seen_in self.new ≡ done (seen_in self.old) (Synced path.now)) }
        ensures err { OnErr result (seen_in self.new ≡ failed (seen_in self.old)) }
        ensures told { result ≢ Err the_error.Unknown }
    {
        match self.try_sync_folder(path, store) {
            Ok(()) => Ok(()),
            Err(_) => Err(self.fail(TreeError::Broken)),
        }
    }
}
