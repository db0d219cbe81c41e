use keep_disk::DiskTree;
use keep_files::{FileTree, Node, TreeError};
use keep_progress::CountedFiles;
use keep_rope::Rope;

/// The files below a folder of the machine, which are counted as they are read.
#[derive(Drop)]
pub struct CountedTree<'a> {
    pub(crate) tree: DiskTree<CountedFiles<'a>>,
}

impl FileTree for CountedTree<'_> {
    ghost use Rattle.keep_memory_files.specs.Memory.{seen_in};

    ghost seen = { λ counted. seen_in counted.tree.image };

    fn read(&mut self, path: &str) -> Result<Option<Node>, TreeError> {
        self.tree.read(path)
    }

    fn has_folder(&mut self, path: &str) -> Result<bool, TreeError> {
        self.tree.has_folder(path)
    }

    fn list(&mut self, folder: &str) -> Result<Vec<String>, TreeError> {
        self.tree.list(folder)
    }

    fn write_new(&mut self, path: &str, bytes: &Rope) -> Result<(), TreeError> {
        self.tree.write_new(path, bytes)
    }

    fn rename(&mut self, from: &str, to: &str) -> Result<(), TreeError> {
        self.tree.rename(from, to)
    }

    fn remove(&mut self, path: &str) -> Result<(), TreeError> {
        self.tree.remove(path)
    }

    fn make_folder(&mut self, path: &str) -> Result<(), TreeError> {
        self.tree.make_folder(path)
    }

    fn sync_folder(&mut self, path: &str) -> Result<(), TreeError> {
        self.tree.sync_folder(path)
    }
}
