ghost use Rattle.std.specs.Prelude.{IfOk, OnOk};
ghost use Rattle.keep_files.specs.Stands.{IsClosed};
ghost use Rattle.keep_memory_files.specs.Memory.{seen_in};

use crate::trees::tree_stop::Stop;
use keep_files::FileTree;
use keep_memory_files::MemoryTree;
use keep_rope::Rope;
use std::alloc::Global;

/// What stands at a path at the beginning.
#[derive(Drop)]
pub(crate) enum Entry {
    Folder(String),
    File(String, Rope),
}

/// What stands in the tree of a case at the beginning.
#[derive(Drop)]
pub(crate) struct Case {
    pub alloc: Global,
    /// Folders come before what they hold.
    pub entries: Vec<Entry>,
}

impl Case {
    pub fn new(alloc: Global) -> Case {
        Case {
            alloc,
            entries: Vec::new(alloc),
        }
    }

    /// The tree at the beginning.
    pub fn tree(&self) -> Result<MemoryTree, Stop>
        ensures { IfOk result (λ tree. IsClosed (seen_in tree).stands) }
    {
        let mut tree = MemoryTree::new(self.alloc);
        for entry in &self.entries {
            add(&mut tree, entry)?;
        }
        Ok(tree)
    }
}

/// Has this stand in the tree.
fn add(tree: &mut MemoryTree, entry: &Entry) -> Result<(), Stop>
    requires { IsClosed (seen_in tree.old).stands }
    ensures { OnOk result (IsClosed (seen_in tree.new).stands) }
{
    match entry {
        Entry::Folder(path) => tree.make_folder(path.as_str())?,
        Entry::File(path, bytes) => tree.write_new(path.as_str(), bytes)?,
    }
    Ok(())
}
