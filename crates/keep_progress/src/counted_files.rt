use crate::meter::Meter;
use std::alloc::{AllocError, Allocator, Global};
use std::cell::RefCell;
use std::fs::{File, Files, Metadata, OpenOptions};
use std::io;
use std::rc::Rc;

/// The files of the machine that the program runs on, of which those that are opened are counted while a count goes. All
/// clones have one count.
#[derive(Clone, Drop)]
pub struct CountedFiles<'a> {
    rt: &'a HostRuntime,
    /// None where no count goes.
    meter: Rc<RefCell<Option<Meter<'a>>>>,
}

impl<'a> CountedFiles<'a> {
    /// No count goes yet.
    pub fn new(rt: &'a HostRuntime) -> Result<CountedFiles<'a>, AllocError> {
        let meter = Rc::new(rt.alloc(), RefCell::new(None))?;
        Ok(CountedFiles { rt, meter })
    }

    /// Counts from nothing, for work that goes by this verb.
    pub fn begin(&self, verb: &'static str) {
        if let Ok(mut meter) = self.meter.try_borrow_mut() {
            *meter = Some(Meter::new(self.rt, verb, "files"));
        }
    }

    /// Counts no more, and nothing is said from then on.
    pub fn end(&self) {
        if let Ok(mut meter) = self.meter.try_borrow_mut() {
            *meter = None;
        }
    }

    /// Counts a file that was opened, and its bytes, where its length can be had.
    fn count(&self, file: &File) {
        if let Ok(mut meter) = self.meter.try_borrow_mut() {
            if let Some(meter) = &mut *meter {
                meter.count_item();
                if let Ok(seen) = file.metadata() {
                    meter.count_bytes(seen.len() as usize);
                }
            }
        }
    }
}

impl Alloc for CountedFiles<'_> {
    type A = Global;

    fn alloc(&self) -> Global {
        self.rt.alloc()
    }
}

/// Each call goes to the machine.
impl Files for CountedFiles<'_> {
    type File = File;

    type Dir = <HostRuntime as Files>::Dir;

    fn open_file(&self, how: &OpenOptions, path: &str) -> io::Result<File> {
        let file = self.rt.open_file(how, path)?;
        self.count(&file);
        Ok(file)
    }

    fn open_dir(&self, path: &str) -> io::Result<<HostRuntime as Files>::Dir> {
        self.rt.open_dir(path)
    }

    fn metadata(&self, path: &str) -> io::Result<Metadata> {
        self.rt.metadata(path)
    }

    fn symlink_metadata(&self, path: &str) -> io::Result<Metadata> {
        self.rt.symlink_metadata(path)
    }

    fn copy(&self, from: &str, to: &str) -> io::Result<u64> {
        self.rt.copy(from, to)
    }

    fn rename(&self, from: &str, to: &str) -> io::Result<()> {
        self.rt.rename(from, to)
    }

    fn remove_file(&self, path: &str) -> io::Result<()> {
        self.rt.remove_file(path)
    }

    fn create_dir(&self, path: &str) -> io::Result<()> {
        self.rt.create_dir(path)
    }

    fn create_dir_with_mode(&self, path: &str, mode: u32) -> io::Result<()> {
        self.rt.create_dir_with_mode(path, mode)
    }

    fn remove_dir(&self, path: &str) -> io::Result<()> {
        self.rt.remove_dir(path)
    }

    fn remove_dir_all<B: Allocator>(&self, alloc: B, path: &str) -> io::Result<()> {
        self.rt.remove_dir_all(alloc, path)
    }
}
