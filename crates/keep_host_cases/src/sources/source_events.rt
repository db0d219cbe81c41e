ghost use Rattle.std.specs.Prelude.{◌≤◌, OnOk};

use crate::sources::source_words::word_of;
use keep_names::Id;
use keep_sources::{Receives, Stat, StatKind, Stop, Why};
use std::alloc::{AllocError, Global};

/// Texts up to so many bytes are shown, and longer ones counted.
const MOST_SHOWN: usize = 40;

/// What was given, as text: a part for each call.
#[derive(Drop)]
pub(crate) struct Events {
    alloc: Global,
    text: String,
    held: u64,
}

impl Events {
    pub(crate) fn new(alloc: Global, held: u64) -> Events {
        Events {
            alloc,
            text: String::new(alloc),
            held,
        }
    }

    pub(crate) fn into_text(self) -> String {
        self.text
    }

    /// One more part.
    pub(crate) fn add(&mut self, part: &str) -> Result<(), AllocError> {
        if !self.text.is_empty() {
            self.text.push_str(" ; ")?;
        }
        self.text.push_str(part)
    }

    fn add_named(&mut self, word: &str, name: &str) -> Result<(), AllocError> {
        let name = word_of(self.alloc, name)?;
        let part = format!(in self.alloc; "{word} {name}")?;
        self.add(part.as_str())
    }

    fn add_file(&mut self, name: &str, size: u64) -> Result<(), AllocError> {
        let name = word_of(self.alloc, name)?;
        let part = format!(in self.alloc; "file {name} {size}")?;
        self.add(part.as_str())
    }

    fn add_bytes(&mut self, bytes: &[u8]) -> Result<(), AllocError> {
        let count = bytes.len();
        if count > MOST_SHOWN {
            let part = format!(in self.alloc; "write {count} bytes")?;
            return self.add(part.as_str());
        }
        let text = String::from_utf8_lossy(self.alloc, bytes)?;
        self.add_named("write", text.as_str())
    }

    fn add_same(&mut self, name: &str, content: &[Id]) -> Result<(), AllocError> {
        let count = content.len();
        let name = word_of(self.alloc, name)?;
        let part = format!(in self.alloc; "same {name} {count}")?;
        self.add(part.as_str())
    }

    fn add_link(&mut self, name: &str, target: &str) -> Result<(), AllocError> {
        let name = word_of(self.alloc, name)?;
        let target = word_of(self.alloc, target)?;
        let part = format!(in self.alloc; "link {name} {target}")?;
        self.add(part.as_str())
    }

    pub(crate) fn add_skip(&mut self, path: &str, why: Why) -> Result<(), AllocError> {
        let path = word_of(self.alloc, path)?;
        let part = match why {
            Why::Denied => format!(in self.alloc; "skip {path} denied")?,
            Why::Gone => format!(in self.alloc; "skip {path} gone")?,
            Why::Replaced => format!(in self.alloc; "skip {path} replaced")?,
            Why::Unsayable(count) => format!(in self.alloc; "skip {path} unsayable {count}")?,
            Why::TooDeep => format!(in self.alloc; "skip {path} deep")?,
            Why::Failed => format!(in self.alloc; "skip {path} failed")?,
            Why::Shrank => format!(in self.alloc; "skip {path} shrank")?,
            Why::Grew => format!(in self.alloc; "skip {path} grew")?,
        };
        self.add(part.as_str())
    }
}

impl Receives for Events {
    ghost Seen = { Unit {0} };

    ghost seen = { λ _. tt };

    ghost gives = { λ _ _ _. Unit {0} };

    ghost holds = { λ events. events.held };

    fn open_folder(&mut self, name: &str) -> Result<(), Stop> {
        self.add_named("open", name)?;
        Ok(())
    }

    fn close_folder(&mut self, _sight: &Stat) -> Result<(), Stop> {
        self.add("close")?;
        Ok(())
    }

    fn write(&mut self, bytes: &[u8]) -> Result<(), Stop> {
        self.add_bytes(bytes)?;
        self.held = self.held.saturating_add(bytes.len() as u64);
        Ok(())
    }

    fn end_file(&mut self, name: &str, sight: &Stat) -> Result<(), Stop> {
        self.add_file(name, sight.size)?;
        Ok(())
    }

    fn drop_file(&mut self) -> Result<(), Stop> {
        self.add("drop")?;
        Ok(())
    }

    fn same_file(&mut self, name: &str, content: &[Id], _sight: &Stat) -> Result<(), Stop> {
        self.add_same(name, content)?;
        Ok(())
    }

    fn add_other(&mut self, name: &str, sight: &Stat) -> Result<(), Stop> {
        match &sight.kind {
            StatKind::File => self.add_named("file", name)?,
            StatKind::Folder => self.add_named("folder", name)?,
            StatKind::Link(target) => self.add_link(name, target.as_str())?,
            StatKind::Fifo => self.add_named("fifo", name)?,
            StatKind::Socket => self.add_named("socket", name)?,
            StatKind::Device => self.add_named("device", name)?,
            StatKind::CharDevice => self.add_named("chardev", name)?,
        }
        Ok(())
    }

    fn held(&self) -> u64 {
        self.held
    }

    fn store_part(&mut self) -> Result<(), Stop> {
        self.add("store")?;
        self.held = 0;
        Ok(())
    }
}
