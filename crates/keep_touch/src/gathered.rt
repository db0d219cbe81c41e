ghost use Rattle.std.specs.Prelude.{◌≡◌, ℕ, ◌==◌, ◌&&◌, ◌||◌, [], ◌∷◌, true, map, IfNone, IfOk, IfSome, OnOk};
ghost use Rattle.std.specs.BTreeSet.{contains};
ghost use Rattle.std.specs.List.{list_any};
ghost use Rattle.std.specs.Ordering.{nat_cmp};
ghost use Rattle.keep_change.specs.Touch.{written_facets};
ghost use Rattle.keep_journal.specs.History.{IsNumbered};
ghost use Rattle.keep_touch.specs.Gathering.{Begins, Finds, NothingPends, Takes, Walks};
ghost use Rattle.keep_touch.specs.Finding.{in_force};
ghost use Rattle.keep_touch.specs.Mentions.{AreNoted};

use crate::{Mention, Touch};
use keep_change::{Change, Member};
use keep_journal::History;
use keep_repo::Facet;
use std::alloc::{AllocError, Global};
use std::collections::{BTreeSet, HashSet};

/// What is found of the changes that have to be taken back, while they are looked for.
///
/// Whatever leans on a change is later, so they are looked at by their numbers. The mentions of a facet are gone
/// through once: those after the first change that writes it have all that a later writer would find.
#[derive(Drop)]
pub(crate) struct Gathered {
    /// Those that are still to be looked at.
    pub(crate) pending: BTreeSet<u64>,
    /// The facets whose mentions were gone through.
    pub(crate) walked: HashSet<Facet>,
}

impl Gathered {
    /// Change n is to be looked at.
    pub(crate) fn new(alloc: Global, n: u64) -> Result<Gathered, AllocError>
        ensures { IfOk result (Begins n) }
    {
        let mut pending = BTreeSet::new(alloc);
        pending.insert(n)?;
        let walked = HashSet::new(alloc);
        Ok(Gathered { pending, walked })
    }

    /// The first of those that are to be looked at.
    pub(crate) fn pop_least(&mut self) -> Option<u64>
        ensures first { IfSome result (λ m. Takes m self.old self.new) }
        ensures none { IfNone result (NothingPends self.old) }
    {
        self.pending.pop_first()
    }

    /// Looks for what leans on change n.
    pub(crate) fn look_at(
        &mut self,
        history: &History,
        touch: &Touch,
        n: u64,
    ) -> Result<(), AllocError>
        requires noted { AreNoted touch.now history.now.journal }
        requires numbered { IsNumbered history.now.journal }
        requires kept { in_force history.now.journal n ≡ true }
        ensures { OnOk result (Finds history.now.journal n self.old self.new) }
    {
        if let Some(change) = history.kept_change(n) {
            self.walk_written(history, touch, n, change)?;
        }
        Ok(())
    }

    /// Goes through the mentions of what the change writes.
    fn walk_written(
        &mut self,
        history: &History,
        touch: &Touch,
        n: u64,
        change: &Change,
    ) -> Result<(), AllocError>
        requires noted { AreNoted touch.now history.now.journal }
        requires numbered { IsNumbered history.now.journal }
        ensures { OnOk result (Walks history.now.journal n (written_facets change.now) self.old self.new) }
    {
        self.walk_all(history, touch, n, change.adds.as_slice())?;
        self.walk_all(history, touch, n, change.drops.as_slice())?;
        self.walk_all(history, touch, n, change.sets.as_slice())?;
        self.walk_all(history, touch, n, change.clears.as_slice())?;
        Ok(())
    }

    fn walk_all<M: Member>(
        &mut self,
        history: &History,
        touch: &Touch,
        n: u64,
        members: &[M],
    ) -> Result<(), AllocError>
        requires noted { AreNoted touch.now history.now.journal }
        requires numbered { IsNumbered history.now.journal }
        ensures { OnOk result (Walks history.now.journal n (map M.facet_of members.now) self.old self.new) }
    {
        for member in members {
            self.walk(history, touch, n, member.facet())?;
        }
        Ok(())
    }

    /// Goes through the mentions of the facet after change n, unless that was done for an earlier change.
    fn walk(
        &mut self,
        history: &History,
        touch: &Touch,
        n: u64,
        facet: Facet,
    ) -> Result<(), AllocError>
        requires noted { AreNoted touch.now history.now.journal }
        requires numbered { IsNumbered history.now.journal }
        ensures { OnOk result (Walks history.now.journal n (facet ∷ []) self.old self.new) }
    {
        let is_new = self.walked.insert(facet)?;
        if is_new {
            put_in_force(
                &mut self.pending,
                history,
                touch.mentions_after(history, n, facet),
            )?;
        }
        Ok(())
    }
}

/// Puts the numbers of those mentions whose changes are in force and not final.
fn put_in_force(
    pending: &mut BTreeSet<u64>,
    history: &History,
    mentions: &[Mention],
) -> Result<(), AllocError>
    ensures { OnOk result ((m : ℕ) → contains nat_cmp pending.new m ≡ (contains nat_cmp pending.old m
        || list_any (λ mention. (mention.number == m) && in_force history.now.journal mention.number) mentions.now)) }
{
    for mention in mentions {
        if history.kept_change(mention.number).is_some() {
            pending.insert(mention.number)?;
        }
    }
    Ok(())
}
