ghost use Rattle.std.specs.Prelude.{◌≤◌, OnOk};

use keep_names::Id;
use keep_sources::{Receives, Stat, StatKind, Stop};
use std::alloc::{AllocError, Global};

/// What was given, a line for each call.
#[derive(Drop)]
pub(crate) struct Events {
    alloc: Global,
    text: String,
}

impl Events {
    pub(crate) fn new(alloc: Global) -> Events {
        Events {
            alloc,
            text: String::new(alloc),
        }
    }

    pub(crate) fn as_text(&self) -> &str {
        self.text.as_str()
    }

    fn add(&mut self, line: &str) -> Result<(), AllocError> {
        self.text.push_str(line)?;
        self.text.push('\n')
    }

    fn add_named(&mut self, word: &str, name: &str) -> Result<(), AllocError> {
        let line = format!(in self.alloc; "{word} {name}")?;
        self.add(line.as_str())
    }

    fn add_other_of(&mut self, name: &str, kind: &StatKind) -> Result<(), AllocError> {
        match kind {
            StatKind::Link(target) => {
                let line = format!(in self.alloc; "link {name} -> {target}")?;
                self.add(line.as_str())
            }
            _ => self.add_named("other", name),
        }
    }

    fn add_file(&mut self, name: &str, sight: &Stat) -> Result<(), AllocError> {
        let size = sight.size;
        let is_seen = sight.links == 1 && sight.inode != 0 && sight.mtime.seconds > 0;
        let line = format!(in self.alloc; "file {name} {size} {is_seen}")?;
        self.add(line.as_str())
    }

    fn add_bytes(&mut self, bytes: &[u8]) -> Result<(), AllocError> {
        let text = String::from_utf8_lossy(self.alloc, bytes)?;
        self.add_named("write", text.as_str())
    }
}

impl Receives for Events {
    ghost Seen = { Unit {0} };

    ghost seen = { λ _. tt };

    ghost gives = { λ _ _ _. Unit {0} };

    ghost holds = { λ _. 0 };

    fn open_folder(&mut self, name: &str) -> Result<(), Stop> {
        self.add_named("open", name)?;
        Ok(())
    }

    fn close_folder(&mut self, _sight: &Stat) -> Result<(), Stop> {
        self.add("close")?;
        Ok(())
    }

    fn write(&mut self, bytes: &[u8]) -> Result<(), Stop> {
        self.add_bytes(bytes)?;
        Ok(())
    }

    fn end_file(&mut self, name: &str, sight: &Stat) -> Result<(), Stop> {
        self.add_file(name, sight)?;
        Ok(())
    }

    fn drop_file(&mut self) -> Result<(), Stop> {
        self.add("drop")?;
        Ok(())
    }

    fn same_file(&mut self, name: &str, _content: &[Id], _sight: &Stat) -> Result<(), Stop> {
        self.add_named("same", name)?;
        Ok(())
    }

    fn add_other(&mut self, name: &str, sight: &Stat) -> Result<(), Stop> {
        self.add_other_of(name, &sight.kind)?;
        Ok(())
    }

    fn held(&self) -> u64 {
        0
    }

    fn store_part(&mut self) -> Result<(), Stop> {
        Ok(())
    }
}
