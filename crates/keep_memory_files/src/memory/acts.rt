//! The acts of a tree in memory, each with what is to be done beside it. One that fails leaves all as it was.
ghost use Rattle.std.specs.Prelude.{◌≡◌, ◌≢◌, IfOk, Ok, None, Some, IsTrue, OnOk, OnErr, is_some};
ghost use Rattle.keep_files.specs.Act.{CanDo, Made, Removed, Renamed, Synced, Wrote, done};
ghost use Rattle.keep_files.specs.Stands.{HasHome, is_file, put_at};

use super::MemoryTree;
use crate::done_act::DoneAct;
use keep_files::{Node, TreeError};
use keep_rope::Rope;
use std::alloc::AllocError;

impl MemoryTree {
    ghost use Rattle.keep_memory_files.specs.Memory.{act_of, changed, noted, seen_in};

    pub(super) fn try_write_new<F: FnOnce() -> Result<(), TreeError> + Drop>(
        &mut self,
        path: &str,
        bytes: &Rope,
        store: F,
    ) -> Result<(), TreeError>
        requires { F.pre store }
        ensures stored { OnOk result (F.post store (Ok tt)) }
        ensures can { OnOk result (CanDo (seen_in self.old).stands (Wrote path.now bytes.now)) }
        ensures ok { OnOk result
            (seen_in self.new ≡ done (seen_in self.old) (Wrote path.now bytes.now)) }
        ensures err { OnErr result (seen_in self.new ≡ seen_in self.old) }
    {
        let deed = DoneAct::Write(String::from_str(self.alloc, path)?, bytes.clone()?);
        let node = Node::File(bytes.clone()?);
        self.add(path, node, &deed, store)
    }

    pub(super) fn try_make_folder<F: FnOnce() -> Result<(), TreeError> + Drop>(
        &mut self,
        path: &str,
        store: F,
    ) -> Result<(), TreeError>
        requires { F.pre store }
        ensures stored { OnOk result (F.post store (Ok tt)) }
        ensures can { OnOk result (CanDo (seen_in self.old).stands (Made path.now)) }
        ensures ok { OnOk result (seen_in self.new ≡ done (seen_in self.old) (Made path.now)) }
        ensures err { OnErr result (seen_in self.new ≡ seen_in self.old) }
    {
        let deed = DoneAct::Make(String::from_str(self.alloc, path)?);
        self.add(path, Node::Folder, &deed, store)
    }

    /// Has this stand where nothing stood, and notes what was done.
    fn add<F: FnOnce() -> Result<(), TreeError> + Drop>(
        &mut self,
        path: &str,
        node: Node,
        deed: &DoneAct,
        store: F,
    ) -> Result<(), TreeError>
        requires { F.pre store }
        ensures stored { OnOk result (F.post store (Ok tt)) }
        ensures free { OnOk result ((seen_in self.old).stands path.now ≡ None) }
        ensures home { OnOk result (HasHome (seen_in self.old).stands path.now) }
        ensures ok { let stands = put_at (seen_in self.old).stands path.now (Some node) in
            OnOk result (seen_in self.new ≡ noted (changed (seen_in self.old) stands) (act_of deed.now)) }
        ensures err { OnErr result (seen_in self.new ≡ seen_in self.old) }
    {
        if self.nodes.contains_key(path) {
            return Err(TreeError::Broken);
        }
        if !self.has_home(path) {
            return Err(TreeError::Broken);
        }
        self.put(path, node)?;
        if let Err(error) = store() {
            self.clear(path);
            return Err(error);
        }
        self.note(deed);
        Ok(())
    }

    fn renaming(&self, from: &str, to: &str) -> Result<DoneAct, AllocError>
        ensures { IfOk result (λ deed. act_of deed ≡ Renamed from.now to.now) }
    {
        let from = String::from_str(self.alloc, from)?;
        let to = String::from_str(self.alloc, to)?;
        Ok(DoneAct::Rename(from, to))
    }

    pub(super) fn try_rename<F: FnOnce() -> Result<(), TreeError> + Drop>(
        &mut self,
        from: &str,
        to: &str,
        store: F,
    ) -> Result<(), TreeError>
        requires file { IsTrue (is_file ((seen_in self.old).stands from.now)) }
        requires apart { from.now ≢ to.now }
        requires callable { F.pre store }
        ensures stored { OnOk result (F.post store (Ok tt)) }
        ensures can { OnOk result (CanDo (seen_in self.old).stands (Renamed from.now to.now)) }
        ensures ok { OnOk result
            (seen_in self.new ≡ done (seen_in self.old) (Renamed from.now to.now)) }
        ensures err { OnErr result (seen_in self.new ≡ seen_in self.old) }
    {
        if self.is_folder(to) || !self.has_home(to) {
            return Err(TreeError::Broken);
        }
        let deed = self.renaming(from, to)?;
        let Some(node) = self.shared(from)? else {
            unreachable!()
        };
        let stood = self.put(to, node)?;
        if let Err(error) = store() {
            self.put_back(to, stood);
            return Err(error);
        }
        self.clear(from);
        self.note(&deed);
        Ok(())
    }

    pub(super) fn try_remove<F: FnOnce() -> Result<(), TreeError> + Drop>(
        &mut self,
        path: &str,
        store: F,
    ) -> Result<(), TreeError>
        requires { F.pre store }
        ensures stored { OnOk result
            (IsTrue (is_some ((seen_in self.old).stands path.now)) → F.post store (Ok tt)) }
        ensures can { OnOk result (CanDo (seen_in self.old).stands (Removed path.now)) }
        ensures ok { OnOk result (seen_in self.new ≡ done (seen_in self.old) (Removed path.now)) }
        ensures err { OnErr result (seen_in self.new ≡ seen_in self.old) }
    {
        if self.is_folder(path) {
            return Err(TreeError::Broken);
        }
        let deed = DoneAct::Remove(String::from_str(self.alloc, path)?);
        if self.nodes.contains_key(path) {
            store()?;
        }
        self.clear(path);
        self.note(&deed);
        Ok(())
    }

    pub(super) fn try_sync_folder<F: FnOnce() -> Result<(), TreeError> + Drop>(
        &mut self,
        path: &str,
        store: F,
    ) -> Result<(), TreeError>
        requires { F.pre store }
        ensures stored { OnOk result (F.post store (Ok tt)) }
        ensures ok { OnOk result (seen_in self.new ≡ done (seen_in self.old) (Synced path.now)) }
        ensures err { OnErr result (seen_in self.new ≡ seen_in self.old) }
    {
        let deed = DoneAct::Sync(String::from_str(self.alloc, path)?);
        store()?;
        self.note(&deed);
        Ok(())
    }
}
