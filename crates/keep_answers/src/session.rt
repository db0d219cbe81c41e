ghost use Rattle.std.specs.Prelude.{◌≡◌, false};
ghost use Rattle.keep_answers.specs.State.{no_notes, notes_of};

use crate::notes::Notes;
use keep_jobs::Settings;
use std::alloc::Global;

/// What the lines of a run have in common, beside the kit and the book.
#[derive(Drop)]
pub struct Session {
    pub(crate) alloc: Global,
    pub(crate) settings: Settings,
    pub(crate) notes: Notes,
    /// Whether a line was answered that a call of the shelf failed.
    pub(crate) faulted: bool,
}

impl Session {
    /// A session that has no notes.
    pub fn new(alloc: Global, settings: Settings) -> Session
        ensures settings { result.settings ≡ settings }
        ensures notes { notes_of result.notes ≡ no_notes }
        ensures faultless { result.faulted ≡ false }
    {
        Session {
            alloc,
            settings,
            notes: Notes::new(alloc),
            faulted: false,
        }
    }

    /// Whether a line was answered that a call of the shelf failed.
    pub fn is_faulted(&self) -> bool
        ensures { result ≡ self.now.faulted }
    {
        self.faulted
    }
}
