ghost use Rattle.std.specs.Prelude.{◌≡◌, [], ◌∷◌, ◌++◌, OnOk};
ghost use Rattle.keep_rescue.specs.Salvage.{putting};

use crate::loss::{Loss, Lost};
use crate::names::{name_at, path_below};
use keep_docs::{ConfigError, DocError, read_config};
use keep_names::{FileName, Id};
use keep_sources::{Receives, Stat, Stop};
use keep_targets::{Target, TargetError};
use std::alloc::{AllocError, Global};

/// A rescue under way: the walk over the old folder gives it what it meets.
#[derive(Drop)]
pub(crate) struct Salvage<T> {
    pub(crate) alloc: Global,
    pub(crate) target: T,
    /// The paths of the folders that are open.
    pub(crate) folders: Vec<String>,
    /// Of a file that hasn't ended.
    pub(crate) bytes: Vec<u8>,
    pub(crate) config: Option<Vec<u8>>,
    pub(crate) saved: Vec<FileName>,
    pub(crate) lost: Vec<Lost>,
    /// Why the target refused, if it did.
    pub(crate) refusal: Option<TargetError>,
}

impl<T: Target> Salvage<T> {
    ghost use Rattle.std.specs.Prelude.{◌≡◌, OnOk, Some, string_bytes};
    ghost use Rattle.keep_rescue.specs.Salvage as spec;
    ghost use Rattle.keep_rescue.specs.Seen.{seen_by};

    pub(crate) fn new(alloc: Global, target: T) -> Salvage<T>
        ensures { seen_by T.calls result ≡ spec.begun (T.calls target) }
    {
        Salvage {
            alloc,
            target,
            folders: Vec::new(alloc),
            bytes: Vec::new(alloc),
            config: None,
            saved: Vec::new(alloc),
            lost: Vec::new(alloc),
            refusal: None,
        }
    }

    /// Notes why the target refused: no more is taken then.
    fn refused(&mut self, refusal: TargetError) -> Stop {
        self.refusal = Some(refusal);
        Stop::Refused
    }

    fn lose(&mut self, path: String, why: Loss) -> Result<(), Stop>
        ensures { OnOk result (seen_by T.calls self.new
            ≡ spec.losing (seen_by T.calls self.old) (string_bytes path) why) }
    {
        push(&mut self.lost, Lost { path, why })?;
        Ok(())
    }

    fn make_folder(&mut self, path: String) -> Result<(), Stop>
        ensures { OnOk result (seen_by T.calls self.new
            ≡ spec.opening (seen_by T.calls self.old) (string_bytes path)) }
    {
        let place = format!(in self.alloc; "/{path}")?;
        push(&mut self.folders, path)?;
        match self.target.make_folder(place.as_str()) {
            Ok(()) => Ok(()),
            Err(refusal) => Err(self.refused(refusal)),
        }
    }

    /// Makes what ended here anew, if it is whole.
    fn finish_file(&mut self, path: String) -> Result<(), Stop>
        ensures { OnOk result (seen_by T.calls self.new
            ≡ spec.ending (seen_by T.calls self.old) (string_bytes path)) }
    {
        if path.as_str() == "config" {
            return self.configure();
        }
        match name_at(self.alloc, path.as_str(), &self.bytes)? {
            Some(name) => self.save(path.as_str(), name),
            None => self.lose(path, Loss::OtherBytes),
        }
    }

    fn save(&mut self, path: &str, name: FileName) -> Result<(), Stop>
        ensures { OnOk result (seen_by T.calls self.new
            ≡ spec.saving (seen_by T.calls self.old) path.now (Some name)) }
    {
        let place = format!(in self.alloc; "/{path}")?;
        push(&mut self.saved, name)?;
        match put_file(&mut self.target, place.as_str(), &self.bytes) {
            Ok(()) => Ok(()),
            Err(refusal) => Err(self.refused(refusal)),
        }
    }

    fn configure(&mut self) -> Result<(), Stop>
        ensures { OnOk result (seen_by T.calls self.new ≡ spec.configuring (seen_by T.calls self.old)) }
    {
        match read_config(self.alloc, &self.bytes) {
            Ok(_) => {
                self.config = Some(Vec::from_slice(self.alloc, &self.bytes)?);
                Ok(())
            }
            Err(ConfigError::Doc(DocError::Memory)) => Err(Stop::Memory),
            Err(_) => Ok(()),
        }
    }
}

impl<T: Target> Receives for Salvage<T> {
    ghost use Rattle.keep_rescue.specs.Salvage.{SalvageData, steps};
    ghost use Rattle.keep_rescue.specs.Seen.{seen_by};

    ghost Seen = { SalvageData };

    ghost seen = { seen_by T.calls };

    ghost gives = { steps };

    // A file is held until it ends, whatever its size.
    ghost holds = { λ _. 0 };

    fn open_folder(&mut self, name: &str) -> Result<(), Stop> {
        let path = path_below(self.alloc, &self.folders, name)?;
        self.make_folder(path)
    }

    fn close_folder(&mut self, _stat: &Stat) -> Result<(), Stop> {
        let _closed = self.folders.pop();
        Ok(())
    }

    fn write(&mut self, bytes: &[u8]) -> Result<(), Stop> {
        self.bytes.extend_from_slice(bytes)?;
        Ok(())
    }

    fn end_file(&mut self, name: &str, _stat: &Stat) -> Result<(), Stop> {
        let path = path_below(self.alloc, &self.folders, name)?;
        self.finish_file(path)?;
        self.bytes.clear();
        Ok(())
    }

    fn drop_file(&mut self) -> Result<(), Stop> {
        self.bytes.clear();
        Ok(())
    }

    fn same_file(&mut self, _name: &str, _content: &[Id], _stat: &Stat) -> Result<(), Stop> {
        Ok(())
    }

    fn add_other(&mut self, name: &str, _stat: &Stat) -> Result<(), Stop> {
        let path = path_below(self.alloc, &self.folders, name)?;
        self.lose(path, Loss::NoFile)
    }

    fn held(&self) -> u64 {
        0
    }

    fn store_part(&mut self) -> Result<(), Stop> {
        Ok(())
    }
}

fn push<X: Drop>(list: &mut Vec<X>, item: X) -> Result<(), AllocError>
    ensures { OnOk result (list.new.items ≡ list.old.items ++ item ∷ []) }
{
    list.push(item)?;
    Ok(())
}

/// Makes a file of these bytes.
pub(crate) fn put_file<T: Target>(
    target: &mut T,
    place: &str,
    bytes: &[u8],
) -> Result<(), TargetError>
    ensures { OnOk result (T.calls target.new ≡ putting (T.calls target.old) place.now bytes.now) }
{
    target.make_file(place)?;
    match target.append(place, bytes) {
        Ok(()) => Ok(()),
        Err(short) => Err(short.refusal),
    }
}
