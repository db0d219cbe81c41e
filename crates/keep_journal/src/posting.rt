ghost use Rattle.std.specs.Prelude.{◌≡◌, IfOk};
ghost use Rattle.keep_change.specs.Lists.{file_names as names_among};
ghost use Rattle.keep_journal.specs.Event.{names_added as names_added_by};

use crate::event::{Entry, Event, EventKind};
use keep_change::{Listed, StoredFile};
use keep_names::FileName;
use std::alloc::{AllocError, Global};
use std::marker::Model;

/// An entry with all that a history keeps of it, so that it takes no memory to append it.
#[derive(Drop)]
pub struct Posting {
    pub(crate) entry: Entry,
    /// The names of the files that a commit's change adds.
    pub(crate) names: Option<Listed<FileName>>,
}

impl Model for Posting {
    ghost use Rattle.std.specs.Prelude.{◌≡◌};
    ghost use Rattle.keep_journal.specs.Event.{names_added};
    ghost use Rattle.keep_journal.specs.declared.event.Entry as the_entry;

    ghost Value = { the_entry.Entry };

    ghost view = { λ p. p.entry };

    ghost invariant = { λ p. p.names ≡ names_added p.entry.event };
}

impl Posting {
    pub fn of(alloc: Global, entry: Entry) -> Result<Posting, AllocError>
        ensures { IfOk result (λ posting. posting ≡ entry) }
    {
        let names = names_added(alloc, &entry.event)?;
        Ok(Posting { entry, names })
    }

    pub fn as_entry(&self) -> &Entry
        ensures { result.now ≡ self.now }
    {
        &self.entry
    }
}

/// The names of the files that a commit's change adds. Other events have none.
fn names_added(alloc: Global, event: &Event) -> Result<Option<Listed<FileName>>, AllocError>
    ensures { IfOk result (λ names. names ≡ names_added_by event.now) }
{
    match &event.kind {
        EventKind::Commit(change) => {
            let mut names = file_names(alloc, change.as_change().adds.as_slice())?;
            names.shrink_to_fit();
            Ok(Some(Listed::from_vec(names)))
        }
        EventKind::Undo | EventKind::Redo | EventKind::Empty(_) => Ok(None),
    }
}

fn file_names(alloc: Global, files: &[StoredFile]) -> Result<Vec<FileName>, AllocError>
    ensures { IfOk result (λ names. names.items ≡ names_among files.now) }
{
    files.iter().map(|file| file.name()).collect(alloc)
}
