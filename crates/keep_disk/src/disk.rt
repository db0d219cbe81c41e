ghost use Rattle.std.specs.IoError.{error_kind};
ghost use Rattle.std.specs.Prelude.{◌≡◌, ◌≢◌, ◌↔◌, ◌⊎◌, Err, IfErr, IsTrue, Ok, OnOk};
ghost use Rattle.keep_files.specs.declared.tree_error.TreeError.TheVariants as the_error;

use crate::disk_names::{is_leftover, names_in};
use crate::lock::Lock;
use crate::new_file::write_lasting;
use crate::private::{make_dir, make_file};
use crate::sight::{after_making, after_removal, after_rename, after_writing, is_at, look};
use keep_files::TreeError;
use keep_rope::Rope;
use std::alloc::{AllocError, Global};
use std::fs::{File, Files};
use std::io::ErrorKind;
use std::{fs, io};

/// The calls of the file system below a folder, by paths below it. A call that answers `Broken` has done nothing.
#[derive(Drop)]
pub(crate) struct Disk<R> {
    rt: R,
    root: String,
    lock: Lock,
    /// Whether what earlier runs left was taken away.
    is_cleared: bool,
}

impl<R: Files<File = File> + Alloc<A = Global> + Clone + Drop> Disk<R> {
    pub(crate) fn new(rt: R, root: String, lock: Lock) -> Disk<R> {
        Disk {
            rt,
            root,
            lock,
            is_cleared: false,
        }
    }

    /// Writes a new file, and syncs it. A link that lies at the path isn't followed: it makes the call fail.
    pub(crate) fn write_new(&mut self, path: &str, bytes: &Rope) -> Result<(), TreeError> {
        let place = self.below_root(path)?;
        self.prepare(path)?;
        let error = match self.fill(place.as_str(), bytes) {
            Ok(()) => return Ok(()),
            Err(error) => error,
        };
        if error.kind() == ErrorKind::AlreadyExists {
            return Err(TreeError::Broken);
        }
        let _ = fs::remove_file(&self.rt, place.as_str());
        Err(after_writing(look(&self.rt, place.as_str())))
    }

    /// Moves a file, over the file that lies at its new path. A link that lies there is replaced.
    pub(crate) fn rename(&mut self, from: &str, to: &str) -> Result<(), TreeError> {
        let source = self.below_root(from)?;
        let target = self.below_root(to)?;
        self.prepare(from)?;
        self.prepare(to)?;
        let Ok(moved) = fs::symlink_metadata(&self.rt, source.as_str()) else {
            return Err(TreeError::Broken);
        };
        match fs::rename(&self.rt, source.as_str(), target.as_str()) {
            Ok(()) => Ok(()),
            Err(_) => {
                let is_target = is_at(&self.rt, &moved, target.as_str()).is_ok_and(|same| same);
                after_rename(look(&self.rt, source.as_str()), is_target)
            }
        }
    }

    pub(crate) fn remove(&mut self, path: &str) -> Result<(), TreeError> {
        let place = self.below_root(path)?;
        self.prepare(path)?;
        match fs::remove_file(&self.rt, place.as_str()) {
            Ok(()) => Ok(()),
            Err(_) => after_removal(look(&self.rt, place.as_str())),
        }
    }

    pub(crate) fn make_folder(&mut self, path: &str) -> Result<(), TreeError> {
        let place = self.below_root(path)?;
        self.prepare(path)?;
        match make_dir(&self.rt, place.as_str()) {
            Ok(()) => Ok(()),
            Err(_) if self.is_linked_top(path, place.as_str()) => Ok(()),
            Err(_) => after_making(look(&self.rt, place.as_str())),
        }
    }

    /// Whether a folder is where the image has one. A link to one isn't, but at the root.
    pub(crate) fn has_folder(&self, path: &str) -> Result<bool, TreeError> {
        let place = self.below_root(path)?;
        let found = if path.contains('/') {
            fs::symlink_metadata(&self.rt, place.as_str())
        } else {
            fs::metadata(&self.rt, place.as_str())
        };
        match found {
            Ok(found) => Ok(found.is_dir()),
            Err(_) => Err(TreeError::Broken),
        }
    }

    /// Has a folder's names outlast a loss of power.
    pub(crate) fn sync_folder(&self, path: &str) -> Result<(), TreeError> {
        let place = self.below_root(path)?;
        after_sync(self.sync(place.as_str()))
    }

    fn sync(&self, place: &str) -> io::Result<()> {
        File::open(&self.rt, place)?.sync_all()
    }

    /// Makes a file and has its bytes outlast a loss of power.
    fn fill(&self, place: &str, bytes: &Rope) -> io::Result<()> {
        let mut file = make_file(&self.rt, place)?;
        write_lasting(self.rt.alloc(), &mut file, bytes)
    }

    /// Whether a link to a folder lies at the root.
    fn is_linked_top(&self, path: &str, place: &str) -> bool {
        !path.contains('/') && fs::metadata(&self.rt, place).is_ok_and(|found| found.is_dir())
    }

    /// What comes before an act at a path: the lock is this run's, what earlier runs left is gone, and no link is on the
    /// way.
    fn prepare(&mut self, path: &str) -> Result<(), TreeError> {
        if !self.lock.is_held(&self.rt) {
            return Err(TreeError::Broken);
        }
        if !self.is_cleared {
            self.is_cleared = true;
            let _ = self.clear();
        }
        self.require_folders(path)
    }

    /// Refuses a path on which something else than folders leads to its last name, a link to one too. At the root it may
    /// be a link.
    fn require_folders(&self, path: &str) -> Result<(), TreeError> {
        let (mut outer, mut rest) = (String::new(self.rt.alloc()), path);
        for _ in 0..path.len() {
            let Some((name, inner)) = rest.split_once('/') else {
                return Ok(());
            };
            if !outer.is_empty() {
                outer.push('/')?;
            }
            outer.push_str(name)?;
            if !self.has_folder(outer.as_str())? {
                return Err(TreeError::Broken);
            }
            rest = inner;
        }
        Ok(())
    }

    /// Takes away what earlier runs left of files that they were writing.
    fn clear(&self) -> io::Result<()> {
        for name in names_in(&self.rt, self.root.as_str())? {
            if is_leftover(name.as_str()) {
                let place = format!(in self.rt.alloc(); "{}/{name}", self.root)?;
                let _ = fs::remove_file(&self.rt, place.as_str());
            }
        }
        Ok(())
    }

    fn below_root(&self, path: &str) -> Result<String, AllocError> {
        format!(in self.rt.alloc(); "{}/{path}", self.root)
    }
}

/// What became of a folder's sync. A file system that says that it has no such act is left to its own.
fn after_sync(synced: io::Result<()>) -> Result<(), TreeError>
    ensures done { OnOk synced (result ≡ Ok tt) }
    ensures left { IfErr synced (λ error. error_kind error ≡ ErrorKind.Unsupported → result ≡ Ok tt) }
    ensures failed { IfErr synced (λ error. error_kind error ≢ ErrorKind.InvalidInput
        → error_kind error ≢ ErrorKind.Unsupported → result ≡ Err the_error.Broken) }
{
    match synced {
        Ok(()) => Ok(()),
        Err(error) if is_unknown(error.kind()) => Ok(()),
        Err(_) => Err(TreeError::Broken),
    }
}

fn is_unknown(kind: ErrorKind) -> bool
    ensures { IsTrue result ↔ ((kind ≡ ErrorKind.InvalidInput) ⊎ (kind ≡ ErrorKind.Unsupported)) }
{
    matches!(kind, ErrorKind::InvalidInput | ErrorKind::Unsupported)
}
