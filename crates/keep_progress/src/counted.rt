use crate::meter::Meter;
use keep_sources::{FolderListing, Source, Stat, Why};
use keep_targets::{Owner, Short, Target, TargetError, Times};

/// A source whose files and bytes are counted as they are read.
#[derive(Drop)]
pub struct CountedSource<'a, S> {
    source: S,
    meter: Meter<'a>,
}

impl<'a, S: Source> CountedSource<'a, S> {
    /// The source, counted by the meter.
    pub fn new(source: S, meter: Meter<'a>) -> CountedSource<'a, S> {
        CountedSource { source, meter }
    }
}

impl<S: Source> Source for CountedSource<'_, S> {
    ghost told = { S.told };

    fn look(&mut self, path: &str) -> Result<Stat, Why> {
        self.source.look(path)
    }

    fn list(&mut self, folder: &str, seen: &Stat) -> Result<FolderListing, Why> {
        self.source.list(folder, seen)
    }

    fn open(&mut self, path: &str, seen: &Stat) -> Result<(), Why> {
        self.source.open(path, seen)?;
        self.meter.count_item();
        Ok(())
    }

    fn read(&mut self, path: &str, offset: u64, piece: &mut [u8]) -> Result<usize, Why> {
        let count = self.source.read(path, offset, piece)?;
        self.meter.count_bytes(count);
        Ok(count)
    }
}

/// A target whose files and bytes are counted as they are made.
#[derive(Drop)]
pub struct CountedTarget<'a, T> {
    target: T,
    meter: Meter<'a>,
}

impl<'a, T: Target> CountedTarget<'a, T> {
    ghost use Rattle.std.specs.Prelude.{◌≡◌};

    /// The target, counted by the meter.
    pub fn new(target: T, meter: Meter<'a>) -> CountedTarget<'a, T>
        ensures { result.target ≡ target }
    {
        CountedTarget { target, meter }
    }
}

impl<T: Target> Target for CountedTarget<'_, T> {
    ghost calls = { λ counted. T.calls counted.target };

    ghost is_new = { λ counted. T.is_new counted.target };

    fn is_new(&self) -> bool {
        self.target.is_new()
    }

    fn make_folder(&mut self, path: &str) -> Result<(), TargetError> {
        self.target.make_folder(path)
    }

    fn make_file(&mut self, path: &str) -> Result<(), TargetError> {
        let made = self.target.make_file(path);
        if made.is_ok() {
            self.meter.count_item();
        }
        made
    }

    fn append(&mut self, path: &str, bytes: &[u8]) -> Result<(), Short> {
        let written = self.target.append(path, bytes);
        self.meter.count_bytes(bytes.len());
        written
    }

    fn make_link(&mut self, path: &str, to: &str) -> Result<(), TargetError> {
        self.target.make_link(path, to)
    }

    fn set_owner(&mut self, path: &str, owner: Owner) -> Result<(), TargetError> {
        self.target.set_owner(path, owner)
    }

    fn set_link_owner(&mut self, path: &str, owner: Owner) -> Result<(), TargetError> {
        self.target.set_link_owner(path, owner)
    }

    fn set_mode(&mut self, path: &str, mode: u32) -> Result<(), TargetError> {
        self.target.set_mode(path, mode)
    }

    fn set_times(&mut self, path: &str, times: Times) -> Result<(), TargetError> {
        self.target.set_times(path, times)
    }
}
