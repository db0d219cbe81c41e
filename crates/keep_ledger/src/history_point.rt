ghost use Rattle.std.specs.Prelude.{◌≡◌, option_copied, MatchOption};
ghost use Rattle.keep_change.specs.Touch.{before_of};
ghost use Rattle.keep_change.specs.Form.{IsWellFormed};
ghost use Rattle.keep_journal.specs.Opening.{AreWellFormed};
ghost use Rattle.keep_touch.specs.Mentions.{AreNoted};
ghost use Rattle.keep_ledger.specs.Formed.{AreNoted-prop, AreWellFormed-prop};

use keep_change::{Change, Holder};
use keep_journal::History;
use keep_names::{FileName, Id};
use keep_repo::{Bytes, Facet, Mark, Repo};
use keep_touch::Touch;

/// The place of a change in the history: what each facet holds there, as the later changes in
/// force tell it. The first of them that writes a facet found there what it asked for, and what
/// none of them writes is as it is now.
#[derive(Clone, Copy)]
pub(crate) struct HistoryPoint<'a> {
    pub history: &'a History,
    pub touch: &'a Touch,
    pub number: u64,
    pub live: &'a Repo,
    ghost formed: { AreWellFormed history.now.journal } by { AreWellFormed-prop history.now.journal },
    ghost noted: { AreNoted touch.now history.now.journal } by { AreNoted-prop touch.now history.now.journal },
}

impl HistoryPoint<'_> {
    ghost use Rattle.keep_repo.specs.Repository.{held};
    ghost use Rattle.keep_change.specs.Holdings.{value_at};
    ghost use Rattle.keep_journal.specs.Kept.{later};

    /// The first later change in force that writes the facet.
    fn first_writer(&self, facet: Facet) -> Option<&Change>
        ensures { let there = value_at
            (later self.now.history.now.journal self.now.number) (held self.now.live.now) in
            MatchOption (option_copied result)
            (there facet ≡ held self.now.live.now facet)
            (λ c. IsWellFormed c × (there facet ≡ before_of c facet)) }
    {
        let writer = self.touch.after(self.history, self.number, facet)?;
        self.history.kept_change(writer)
    }
}

impl Holder for HistoryPoint<'_> {
    ghost use Rattle.keep_repo.specs.Repository.{held};
    ghost use Rattle.keep_change.specs.Holdings.{value_at};
    ghost use Rattle.keep_journal.specs.Kept.{later};

    ghost holding = { λ p. value_at (later p.history.now.journal p.number) (held p.live.now) };

    fn is_filled(&self, facet: Facet) -> bool {
        match self.first_writer(facet) {
            Some(change) => change.empties(facet),
            None => self.live.facet_filled(facet),
        }
    }

    fn has_file(&self, name: FileName, bytes: &Bytes) -> bool {
        match self.first_writer(Facet::File(name)) {
            Some(change) => change.drops_file(name, bytes),
            None => self.live.has_file(name, bytes),
        }
    }

    fn has_mark(&self, pack: Id, mark: Mark) -> bool {
        match self.first_writer(Facet::Mark(pack)) {
            Some(change) => change.clears_mark(pack, mark),
            None => self.live.has_mark(pack, mark),
        }
    }
}
