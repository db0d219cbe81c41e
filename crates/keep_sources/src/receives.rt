ghost use Rattle.std.specs.Prelude.{◌≡◌, ◌≤◌, OnOk};
ghost use Rattle.keep_sources.specs.Given.{ClosedFolder, DroppedFile, EndedFile, GotOther, GotSame, OpenedFolder, Wrote};
ghost use Rattle.keep_sources.specs.Limits.{most_held};

use crate::stat::Stat;
use keep_names::Id;
use std::alloc::AllocError;

/// Why no more is taken.
#[derive(Clone, Copy, Debug, PartialEq, Eq)]
pub enum Stop {
    Memory,
    /// Whoever receives took no more, and knows why.
    Refused,
}

impl From<AllocError> for Stop {
    ghost use Rattle.std.specs.Prelude.{◌≡◌};
    ghost use Rattle.keep_sources.specs.declared.receives.Stop.TheVariants.{Memory};

    ghost from_gives = { λ _ error. error ≡ Memory };

    fn from(_error: AllocError) -> Stop {
        Stop::Memory
    }
}

/// Who is given what is taken, one after another: a folder's nodes between its opening and its closing, in the order of
/// their names, and a file's bytes before its end. After an error nothing more is given.
pub trait Receives: Drop {
    ghost use Rattle.std.specs.Prelude.{ℕ};
    ghost use Rattle.keep_sources.specs.Given.{Given};

    /// What contracts see of it.
    ghost Seen: { Type 0 };

    ghost seen: { Self → Seen };

    /// What is seen before and after this is given.
    ghost gives: { Seen → Given → Seen → Type 0 };

    /// How many bytes are held in memory until they are stored.
    ghost holds: { Self → ℕ };

    fn open_folder(&mut self, name: &str) -> Result<(), Stop>
        ensures { OnOk result (gives (seen self.old) (OpenedFolder name.now) (seen self.new)) };

    /// Ends the folder that was opened last and isn't closed.
    fn close_folder(&mut self, sight: &Stat) -> Result<(), Stop>
        requires room { holds self.old ≤ most_held }
        ensures { OnOk result (gives (seen self.old) (ClosedFolder sight.now) (seen self.new)) };

    /// Bytes of a file whose end comes later.
    fn write(&mut self, bytes: &[u8]) -> Result<(), Stop>
        requires room { holds self.old ≤ most_held }
        ensures { OnOk result (gives (seen self.old) (Wrote bytes.now) (seen self.new)) };

    /// A file of the bytes that were written since the last one. Its size is how many they are.
    fn end_file(&mut self, name: &str, sight: &Stat) -> Result<(), Stop>
        ensures { OnOk result (gives (seen self.old) (EndedFile name.now sight.now) (seen self.new)) };

    /// The bytes that were written since the last file are of none.
    fn drop_file(&mut self) -> Result<(), Stop>
        ensures { OnOk result (gives (seen self.old) DroppedFile (seen self.new)) };

    /// A file of blobs that are stored.
    fn same_file(&mut self, name: &str, content: &[Id], sight: &Stat) -> Result<(), Stop>
        ensures { OnOk result (gives (seen self.old) (GotSame name.now content.now sight.now) (seen self.new)) };

    /// What is neither a file nor a folder.
    fn add_other(&mut self, name: &str, sight: &Stat) -> Result<(), Stop>
        ensures { OnOk result (gives (seen self.old) (GotOther name.now sight.now) (seen self.new)) };

    /// How many bytes are held in memory until they are stored.
    fn held(&self) -> u64
        ensures { result ≡ holds self.now };

    /// Stores what is held.
    fn store_part(&mut self) -> Result<(), Stop>
        ensures room { OnOk result (holds self.new ≤ most_held) }
        ensures same { OnOk result (seen self.new ≡ seen self.old) };
}
