use keep_disk::DiskTree;
use keep_files::{FileTree, Node, TreeError};
use keep_rope::Rope;

/// The files below a folder of the machine that the program runs on.
///
/// It is a tree on a disk for just one kind of runtime, since what holds a shelf over a tree has to name the tree's type
/// whole.
#[derive(Drop)]
pub struct HostTree<'a> {
    pub(crate) tree: DiskTree<&'a HostRuntime>,
}

impl FileTree for HostTree<'_> {
    ghost use Rattle.keep_memory_files.specs.Memory.{seen_in};

    ghost seen = { λ host. seen_in host.tree.image };

    fn read(&mut self, path: &str) -> Result<Option<Node>, TreeError> {
        self.tree.read(path)
    }

    fn has_folder(&mut self, path: &str) -> Result<bool, TreeError> {
        self.tree.has_folder(path)
    }

    fn list(&mut self, folder: &str) -> Result<Vec<String>, TreeError> {
        self.tree.list(folder)
    }

    fn write_new(&mut self, path: &str, bytes: &Rope) -> Result<(), TreeError> {
        self.tree.write_new(path, bytes)
    }

    fn rename(&mut self, from: &str, to: &str) -> Result<(), TreeError> {
        self.tree.rename(from, to)
    }

    fn remove(&mut self, path: &str) -> Result<(), TreeError> {
        self.tree.remove(path)
    }

    fn make_folder(&mut self, path: &str) -> Result<(), TreeError> {
        self.tree.make_folder(path)
    }

    fn sync_folder(&mut self, path: &str) -> Result<(), TreeError> {
        self.tree.sync_folder(path)
    }
}
