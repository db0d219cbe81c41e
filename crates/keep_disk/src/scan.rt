ghost use Rattle.std.specs.Prelude.{◌≡◌, ℕ, IfOk, List, None, OnOk, Some, codes};
ghost use Rattle.keep_files.specs.Stands.{IsClosed};
ghost use Rattle.keep_files.specs.declared.node.Node.TheVariants as the_node;
ghost use Rattle.keep_memory_files.specs.Memory.{seen_in};

use crate::disk_names::names_in;
use crate::disk_reading::{MAX_TURNS, read_file};
use crate::lock::Lock;
use keep_files::acts_keep_folders;
use keep_memory_files::MemoryTree;
use keep_paths::{holds_keys, key_of_path};
use keep_repo::{Bytes, Repo};
use keep_rope::Rope;
use keep_shelf::Key;
use std::alloc::Global;
use std::fs::{File, Files};
use std::io::ErrorKind;
use std::{fs, io, mem};

/// What was read so far, and the folders that are to be read, by their paths below the root.
///
/// The journal is read last. Of an entry's text the hex of files that were read isn't held, neither of live ones nor of
/// those in the trash: it is held in pieces as soon as it was read, and of the texts just the one that is being read is
/// held whole.
#[derive(Drop)]
pub(crate) struct Scan<'a, R> {
    rt: &'a R,
    root: &'a str,
    piece: Vec<u8>,
    /// Room for an entry's text, which is the next one's too.
    text: Vec<u8>,
    /// Under which all is read.
    lock: Lock,
    folders: Vec<String>,
    /// Each file that was read, by its name. Where two files have one name it is either of them.
    held: Repo,
    image: MemoryTree,
}

impl<'a, R: Files<File = File> + Alloc<A = Global> + Clone + Drop> Scan<'a, R> {
    pub(crate) fn new(rt: &'a R, root: &'a str, piece: Vec<u8>, lock: Lock) -> Scan<'a, R>
        ensures { (path : List ℕ) → (seen_in result.image).stands path ≡ None }
    {
        Scan {
            rt,
            root,
            piece,
            text: Vec::new(rt.alloc()),
            lock,
            folders: Vec::new(rt.alloc()),
            held: Repo::new(rt.alloc()),
            image: MemoryTree::new(rt.alloc()),
        }
    }

    /// The lock, and the image of what was read under it, with this config.
    pub(crate) fn finish(mut self, config: Bytes) -> io::Result<(Lock, MemoryTree)>
        ensures config { IfOk result (λ read. (seen_in read.1).stands (codes "config") ≡ Some (the_node.File config)) }
        ensures closed { IfOk result (λ read. IsClosed (seen_in self.entry.image).stands → IsClosed (seen_in read.1).stands) }
    {
        self.add_file("config", &Rope::of(config))?;
        let Scan {
            rt: _,
            root: _,
            piece: _,
            text: _,
            lock,
            folders: _,
            held: _,
            image,
        } = self;
        Ok((lock, image))
    }

    /// Reads all that lies where keys lie.
    pub(crate) fn read_all(&mut self) -> io::Result<()>
        ensures { IsClosed (seen_in self.old.image).stands → IsClosed (seen_in self.new.image).stands }
    {
        self.note_root()?;
        for _ in 0..MAX_TURNS {
            match self.folders.pop() {
                Some(folder) => self.note_folder(folder.as_str())?,
                None => return Ok(()),
            }
        }
        Err(io::Error::from(ErrorKind::TimedOut))
    }

    /// Notes the folders at the root. Each of the five may be a link to a folder elsewhere.
    fn note_root(&mut self) -> io::Result<()>
        ensures { IsClosed (seen_in self.old.image).stands → IsClosed (seen_in self.new.image).stands }
    {
        for name in names_in(self.rt, self.root)? {
            if holds_keys(name.as_str()) {
                self.note_inner(name)?;
            }
        }
        Ok(())
    }

    fn note_folder(&mut self, folder: &str) -> io::Result<()>
        ensures { IsClosed (seen_in self.old.image).stands → IsClosed (seen_in self.new.image).stands }
    {
        let path = self.below_root(folder)?;
        for name in names_in(self.rt, path.as_str())? {
            let path = format!(in self.rt.alloc(); "{folder}/{name}")?;
            if let Some(key) = key_of_path(path.as_str()) {
                self.read_keyed(path.as_str(), key)?;
            } else if holds_keys(path.as_str()) {
                self.require_folder(path.as_str())?;
                self.note_inner(path)?;
            }
        }
        Ok(())
    }

    /// Reads a file that lies where this key does.
    fn read_keyed(&mut self, path: &str, key: Key) -> io::Result<()>
        ensures { IsClosed (seen_in self.old.image).stands → IsClosed (seen_in self.new.image).stands }
    {
        let place = self.below_root(path)?;
        let room = mem::replace(&mut self.text, Vec::new(self.rt.alloc()));
        let bytes = read_file(self.rt, place.as_str(), room, self.piece.as_mut_slice())?;
        let bytes = self.hold(key, bytes)?;
        self.add_file(path, &bytes)
    }

    /// What was read, as it is held from now on: a file whole, and an entry's text without the hex of files that are held.
    fn hold(&mut self, key: Key, bytes: Vec<u8>) -> io::Result<Rope>
        ensures value { IfOk result (λ held. held ≡ bytes.items) }
        ensures image { self.new.image ≡ self.old.image }
    {
        let alloc = self.rt.alloc();
        match key {
            Key::Entry(_) => {
                let text = Rope::cut(alloc, bytes.as_slice(), &self.held)?;
                self.text = bytes;
                Ok(text)
            }
            Key::Live(name) | Key::Trash(_, name) => {
                let bytes = Bytes::new(alloc, bytes)?;
                self.held.insert_file(name, bytes.clone()?)?;
                Ok(Rope::of(bytes))
            }
        }
    }

    /// Notes a folder, to be read. The one that was noted last is read first, but the journal is read last of all.
    fn note_inner(&mut self, folder: String) -> io::Result<()>
        ensures { IsClosed (seen_in self.old.image).stands → IsClosed (seen_in self.new.image).stands }
    {
        self.add_folder(folder.as_str())?;
        if folder.as_str() == "journal" {
            self.folders.insert(0, folder)?;
        } else {
            self.folders.push(folder)?;
        }
        Ok(())
    }

    /// Refuses a link that lies where a folder has to, and a file.
    fn require_folder(&self, folder: &str) -> io::Result<()> {
        let place = self.below_root(folder)?;
        if fs::symlink_metadata(self.rt, place.as_str())?.is_dir() {
            Ok(())
        } else {
            Err(io::Error::from(ErrorKind::NotADirectory))
        }
    }

    /// Puts a file that was read into the image.
    fn add_file(&mut self, path: &str, bytes: &Rope) -> io::Result<()>
        ensures closed { IsClosed (seen_in self.old.image).stands → IsClosed (seen_in self.new.image).stands }
        ensures added { OnOk result ((seen_in self.new.image).stands path.now ≡ Some (the_node.File bytes.now)) }
    {
        acts_keep_folders();
        match self.image.write_new_with(path, bytes, || Ok(())) {
            Ok(()) => Ok(()),
            Err(_) => Err(io::Error::from(ErrorKind::OutOfMemory)),
        }
    }

    /// Puts a folder into the image.
    fn add_folder(&mut self, path: &str) -> io::Result<()>
        ensures { IsClosed (seen_in self.old.image).stands → IsClosed (seen_in self.new.image).stands }
    {
        acts_keep_folders();
        match self.image.make_folder_with(path, || Ok(())) {
            Ok(()) => Ok(()),
            Err(_) => Err(io::Error::from(ErrorKind::OutOfMemory)),
        }
    }

    fn below_root(&self, path: &str) -> io::Result<String> {
        Ok(format!(in self.rt.alloc(); "{}/{path}", self.root)?)
    }
}
