ghost use Rattle.std.specs.Prelude.{◌≡◌};
ghost use Rattle.keep_run.specs.Cutting.{piece_length};

use crate::failure::Failure;
use keep_docs::write_doc;
use keep_jobs::{Cut, Settings};
use keep_looks::MachineZone;
use serde_json::Value;
use std::alloc::Global;
use std::io::Write;

/// After how many bytes a backup cuts a file.
const CUT: u32 = 1_048_576;

/// What a command goes by, beside its own words.
#[derive(Clone, Copy)]
pub struct Run<'a> {
    pub rt: &'a HostRuntime,
    pub alloc: Global,
    /// The repository's folder.
    pub folder: &'a str,
    /// Whether what is printed is one JSON document.
    pub is_json: bool,
    /// For how many seconds it waits for the folder's lock.
    pub wait: u64,
    /// The moment: whole seconds since 1970-01-01T00:00:00Z.
    pub now: i64,
    pub zone: &'a MachineZone,
}

impl Run<'_> {
    /// What planners go by.
    pub fn settings(&self) -> Settings
        ensures cut { result.cut.bytes ≡ piece_length }
        ensures now { result.now ≡ self.entry.now.now }
    {
        Settings {
            cut: Cut::after(CUT),
            now: self.now,
        }
    }

    /// Writes the text on standard output.
    pub fn print(&self, text: &[u8]) -> Result<(), Failure> {
        let mut output = self.rt.stdout();
        let written = output.write_all(text);
        match (written, output.flush()) {
            (Ok(()), Ok(())) => Ok(()),
            _ => Err(Failure::Unwritten),
        }
    }

    /// Writes the value as a JSON document on standard output.
    pub fn print_value(&self, value: &Value) -> Result<(), Failure> {
        let mut text = write_doc(self.alloc, value)?;
        text.push(b'\n')?;
        self.print(text.as_slice())
    }
}
