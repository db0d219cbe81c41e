ghost use Rattle.std.specs.Prelude.{◌≤◌, IfErr, IfOk, length, take};

use crate::failure::why_of;
use crate::host_names::names_in;
use crate::kind::kind_of;
use keep_sources::{FolderListing, Moment, Source, Stat, StatKind, Why};
use std::alloc::{AllocError, Global};
use std::collections::BTreeMap;
use std::fs;
use std::fs::{File, Files, Metadata};
use std::io::ErrorKind;
use std::os::unix::fs::{FileExt, MetadataExt};

/// How often a read that a signal interrupts is begun again.
const MOST_TRIES: u32 = 1_024;

/// The files below a folder of this machine.
///
/// std says nothing of what a file system holds, so nothing is said here of what is answered: that it is what the system
/// told is trusted. A regular file alone is opened. It is looked at once more right before, and compared with what was
/// seen once it is open; where a fifo is put in its place between that look and the opening, the opening waits.
#[derive(Drop)]
pub struct HostSource<R> {
    rt: R,
    root: String,
    users: BTreeMap<u32, String>,
    groups: BTreeMap<u32, String>,
    open: Option<File>,
}

impl<R: Files<File = File> + Alloc<A = Global> + Clone + Drop> HostSource<R> {
    /// The files below this folder. `/` is the whole machine. The names of users and groups are read now.
    pub fn new(rt: R, root: &str) -> Result<HostSource<R>, AllocError> {
        let users = names_in(&rt, "/etc/passwd")?;
        let groups = names_in(&rt, "/etc/group")?;
        let root = String::from_str(rt.alloc(), without_slash(root))?;
        Ok(HostSource {
            rt,
            root,
            users,
            groups,
            open: None,
        })
    }

    /// Where the path lies on this machine.
    fn place(&self, path: &str) -> Result<String, Why> {
        match format!(in self.rt.alloc(); "{}/{path}", self.root) {
            Ok(place) => Ok(place),
            Err(AllocError) => Err(Why::Failed),
        }
    }

    fn metadata(&self, place: &str) -> Result<Metadata, Why> {
        match fs::symlink_metadata(&self.rt, place) {
            Ok(found) => Ok(found),
            Err(error) => Err(why_of(&error)),
        }
    }

    fn require_same(&self, place: &str, seen: &Stat) -> Result<(), Why> {
        require_seen(&self.metadata(place)?, seen)
    }

    fn sight_of(&self, kind: StatKind, found: &Metadata) -> Result<Stat, AllocError> {
        Ok(Stat {
            kind,
            mode: found.mode(),
            mtime: moment(found.mtime(), found.mtime_nsec()),
            ctime: moment(found.ctime(), found.ctime_nsec()),
            uid: found.uid(),
            gid: found.gid(),
            user: name_of(&self.users, found.uid())?,
            group: name_of(&self.groups, found.gid())?,
            inode: found.ino(),
            device: found.dev(),
            size: found.size(),
            links: found.nlink(),
            stands_for: found.rdev(),
        })
    }

    /// The names in a folder, in order, and how many can't be said.
    fn names_at(&self, place: &str) -> Result<FolderListing, Why> {
        let mut names = Vec::new(self.rt.alloc());
        let mut unsayable = 0u64;
        let entries = match fs::read_dir(&self.rt, place) {
            Ok(entries) => entries,
            Err(error) => return Err(why_of(&error)),
        };
        for entry in entries {
            match entry {
                Ok(entry) => push_name(self.rt.alloc(), &mut names, entry.file_name())?,
                Err(error) if error.kind() == ErrorKind::InvalidFilename => {
                    unsayable = unsayable.saturating_add(1);
                }
                Err(error) => return Err(why_of(&error)),
            }
        }
        match names.sort() {
            Ok(()) => Ok(FolderListing { names, unsayable }),
            Err(AllocError) => Err(Why::Failed),
        }
    }

    /// Opens what lies there, if it is the file that was seen.
    fn open_seen(&self, place: &str, seen: &Stat) -> Result<File, Why> {
        self.require_same(place, seen)?;
        let file = match File::open(&self.rt, place) {
            Ok(file) => file,
            Err(error) => return Err(why_of(&error)),
        };
        match file.metadata() {
            Ok(found) => require_seen(&found, seen)?,
            Err(error) => return Err(why_of(&error)),
        }
        Ok(file)
    }
}

impl<R: Files<File = File> + Alloc<A = Global> + Clone + Drop> Source for HostSource<R> {
    ghost use Rattle.keep_sources.specs.Told.{anything};

    ghost told = { anything };

    fn look(&mut self, path: &str) -> Result<Stat, Why> {
        let place = self.place(path)?;
        let found = self.metadata(place.as_str())?;
        let kind = kind_of(&self.rt, place.as_str(), &found)?;
        match self.sight_of(kind, &found) {
            Ok(sight) => Ok(sight),
            Err(AllocError) => Err(Why::Failed),
        }
    }

    fn list(&mut self, folder: &str, seen: &Stat) -> Result<FolderListing, Why> {
        let place = self.place(folder)?;
        let listing = self.names_at(place.as_str())?;
        self.require_same(place.as_str(), seen)?;
        Ok(listing)
    }

    fn open(&mut self, path: &str, seen: &Stat) -> Result<(), Why> {
        self.open = None;
        let place = self.place(path)?;
        self.open = Some(self.open_seen(place.as_str(), seen)?);
        Ok(())
    }

    fn read(&mut self, _path: &str, offset: u64, piece: &mut [u8]) -> Result<usize, Why> {
        let Some(file) = &self.open else {
            return Err(Why::Failed);
        };
        for _ in 0..MOST_TRIES {
            match file.read_at(piece, offset) {
                Ok(count) => return Ok(count),
                Err(error) if error.kind() == ErrorKind::Interrupted => {}
                Err(error) => return Err(why_of(&error)),
            }
        }
        Err(Why::Failed)
    }
}

/// Refuses what isn't of the kind, the device and the inode that were seen.
fn require_seen(found: &Metadata, seen: &Stat) -> Result<(), Why> {
    let is_same_kind = match seen.kind {
        StatKind::File => found.is_file(),
        StatKind::Folder => found.is_dir(),
        _ => false,
    };
    if is_same_kind && found.dev() == seen.device && found.ino() == seen.inode {
        Ok(())
    } else {
        Err(Why::Replaced)
    }
}

fn push_name(alloc: Global, names: &mut Vec<String>, name: &str) -> Result<(), Why> {
    match try_push(alloc, names, name) {
        Ok(()) => Ok(()),
        Err(AllocError) => Err(Why::Failed),
    }
}

fn try_push(alloc: Global, names: &mut Vec<String>, name: &str) -> Result<(), AllocError> {
    names.push(String::from_str(alloc, name)?)?;
    Ok(())
}

fn without_slash(root: &str) -> &str {
    match root.strip_suffix('/') {
        Some(front) => front,
        None => root,
    }
}

fn name_of(names: &BTreeMap<u32, String>, number: u32) -> Result<Option<String>, AllocError> {
    match names.get(&number) {
        Some(name) => Ok(Some(name.clone()?)),
        None => Ok(None),
    }
}

fn moment(seconds: i64, nanoseconds: i64) -> Moment {
    Moment {
        seconds,
        nanoseconds: u32::try_from(nanoseconds).unwrap_or(0),
    }
}
