use crate::disk::Disk;
use keep_files::{FileTree, Node, TreeError};
use keep_memory_files::MemoryTree;
use keep_rope::Rope;
use std::alloc::Global;
use std::fs::{File, Files};

/// The files below a folder of a disk, where keys lie, and an image of them in memory. What is read is answered from the
/// image, and each act is done on the disk and in the image, or in neither. An entry's text is held there without the hex
/// of files that lie in the folder too.
///
/// All contracts speak of the image. That the disk is like it is trusted, in four sentences:
///
/// - once the folder is open, the image has what lies on the disk where keys lie, and its config;
/// - a call of the file system that is answered without an error did what its name says, and what was synced outlasts a
///   loss of power;
/// - one that is answered by an error did nothing, unless the look that follows finds it done or can't tell;
/// - nobody else changes what lies there while this run has the lock.
#[derive(Drop)]
pub struct DiskTree<R> {
    pub(crate) disk: Disk<R>,
    pub(crate) image: MemoryTree,
}

impl<R: Files<File = File> + Alloc<A = Global> + Clone + Drop> FileTree for DiskTree<R> {
    ghost use Rattle.keep_memory_files.specs.Memory.{seen_in};

    ghost seen = { λ tree. seen_in tree.image };

    fn read(&mut self, path: &str) -> Result<Option<Node>, TreeError> {
        self.image.read(path)
    }

    fn has_folder(&mut self, path: &str) -> Result<bool, TreeError> {
        self.image.has_folder(path)
    }

    fn list(&mut self, folder: &str) -> Result<Vec<String>, TreeError> {
        self.image.list(folder)
    }

    fn write_new(&mut self, path: &str, bytes: &Rope) -> Result<(), TreeError> {
        let disk = &mut self.disk;
        self.image
            .write_new_with(path, bytes, || disk.write_new(path, bytes))
    }

    fn rename(&mut self, from: &str, to: &str) -> Result<(), TreeError> {
        let disk = &mut self.disk;
        self.image.rename_with(from, to, || disk.rename(from, to))
    }

    fn remove(&mut self, path: &str) -> Result<(), TreeError> {
        let disk = &mut self.disk;
        self.image.remove_with(path, || disk.remove(path))
    }

    fn make_folder(&mut self, path: &str) -> Result<(), TreeError> {
        let disk = &mut self.disk;
        self.image.make_folder_with(path, || disk.make_folder(path))
    }

    fn sync_folder(&mut self, path: &str) -> Result<(), TreeError> {
        let disk = &mut self.disk;
        self.image.sync_folder_with(path, || disk.sync_folder(path))
    }
}
