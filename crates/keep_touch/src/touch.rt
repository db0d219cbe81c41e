ghost use Rattle.std.specs.Prelude.{[], ℕ, OnOk, OnErr};
ghost use Rattle.keep_change.specs.Form.{HasNoFacetTwice};
ghost use Rattle.keep_touch.specs.Followed.{AreFollowed};

use crate::mention::Mention;
use indexmap::{IndexMap, IndexSet};
use keep_change::Change;
use keep_repo::Facet;
use std::alloc::{AllocError, Global};

/// For each facet the changes that touch it.
///
/// It is kept beside a history, whose committed changes are noted. What became of a change it doesn't know, and so
/// nothing is done to it when a change is undone or made again, or becomes final: each question is asked with the
/// history.
#[derive(Debug, Drop)]
pub struct Touch {
    pub(crate) alloc: Global,
    /// By facet, in the order of numbers. No list and an empty one are the same.
    pub(crate) lists: IndexMap<Facet, Vec<Mention>>,
    /// The numbers of the changes that are followed: some facet of theirs has a later mention. Where a note was taken
    /// back it may hold more.
    pub(crate) followed: IndexSet<u64>,
    ghost complete: { AreFollowed lists followed },
}

impl Touch {
    ghost use Rattle.keep_touch.specs.Mentions.{NotesAre, NotesOneMore, NoteTheSame};
    ghost use Rattle.keep_touch.specs.declared.touch.Touch.{Touch};

    /// Nothing is noted yet.
    #[tactic(auto, unfolding(crate::specs::Mentions::mentions))]
    pub fn new(alloc: Global) -> Touch
        ensures { NotesAre result [] }
    {
        Touch {
            alloc,
            lists: IndexMap::new(alloc),
            followed: IndexSet::new(alloc),
        }
    }

    /// Notes a change that is about to be committed under this number, above those noted before.
    pub fn note(&mut self, n: u64, change: &Change) -> Result<(), AllocError>
        requires { HasNoFacetTwice change.now }
        ensures ok { OnOk result (NotesOneMore self.old self.new (record { number = n; change = change.now })) }
        ensures err { OnErr result (NoteTheSame self.old self.new) }
    {
        let writing = Mention {
            number: n,
            writes: true,
        };
        let asking = Mention {
            number: n,
            writes: false,
        };
        self.note_written(change, writing)?;
        if let Err(error) = self.note_asked(change, asking) {
            self.forget_written(change);
            return Err(error);
        }
        Ok(())
    }

    /// Takes the last note back, which was of this change. It takes no memory.
    pub fn forget(&mut self, change: &Change)
        requires { HasNoFacetTwice change.now }
        ensures { (before : Touch) (n : ℕ) → NotesOneMore before self.old (record { number = n; change = change.now })
            → NoteTheSame before self.new }
    {
        self.forget_asked(change);
        self.forget_written(change);
    }
}
