ghost use Rattle.std.specs.Prelude.{◌≡◌, ◌++◌, ◌∷◌, [], map, OnOk, OnErr};
ghost use Rattle.keep_change.specs.Touch.{written_facets};
ghost use Rattle.keep_touch.specs.Followed.{KeepsFollowed, LastIsFollowed};
ghost use Rattle.keep_touch.specs.Mentions.{mentions, NoteTheSame};
ghost use Rattle.keep_touch.specs.Noting.{asked_facets, Forgets, Notes};

use crate::mention::Mention;
use crate::touch::Touch;
use indexmap::IndexSet;
use keep_change::{Change, Member};
use keep_repo::Facet;
use std::alloc::AllocError;

impl Touch {
    pub(crate) fn note_written(
        &mut self,
        change: &Change,
        mention: Mention,
    ) -> Result<(), AllocError>
        ensures ok { OnOk result (Notes mention (written_facets change.now) self.old self.new) }
        ensures err { OnErr result (NoteTheSame self.old self.new) }
    {
        self.note_both(change.adds.as_slice(), change.drops.as_slice(), mention)?;
        if let Err(error) = self.note_both(
            change.sets.as_slice(),
            change.clears.as_slice(),
            mention,
        ) {
            self.forget_both(change.adds.as_slice(), change.drops.as_slice());
            return Err(error);
        }
        Ok(())
    }

    pub(crate) fn forget_written(&mut self, change: &Change)
        ensures { Forgets (written_facets change.now) self.old self.new }
    {
        self.forget_both(change.adds.as_slice(), change.drops.as_slice());
        self.forget_both(change.sets.as_slice(), change.clears.as_slice());
    }

    pub(crate) fn note_asked(&mut self, change: &Change, mention: Mention) -> Result<(), AllocError>
        ensures ok { OnOk result (Notes mention (asked_facets change.now) self.old self.new) }
        ensures err { OnErr result (NoteTheSame self.old self.new) }
    {
        self.note_both(change.present.as_slice(), change.absent.as_slice(), mention)?;
        if let Err(error) = self.note_both(
            change.marked.as_slice(),
            change.unmarked.as_slice(),
            mention,
        ) {
            self.forget_both(change.present.as_slice(), change.absent.as_slice());
            return Err(error);
        }
        Ok(())
    }

    pub(crate) fn forget_asked(&mut self, change: &Change)
        ensures { Forgets (asked_facets change.now) self.old self.new }
    {
        self.forget_both(change.present.as_slice(), change.absent.as_slice());
        self.forget_both(change.marked.as_slice(), change.unmarked.as_slice());
    }

    fn note_both<M: Member>(
        &mut self,
        some: &[M],
        others: &[M],
        mention: Mention,
    ) -> Result<(), AllocError>
        ensures ok { OnOk result (Notes mention (map M.facet_of some.now ++ map M.facet_of others.now) self.old self.new) }
        ensures err { OnErr result (NoteTheSame self.old self.new) }
    {
        self.note_all(some, mention)?;
        if let Err(error) = self.note_all(others, mention) {
            self.forget_all(some);
            return Err(error);
        }
        Ok(())
    }

    fn forget_both<M: Member>(&mut self, some: &[M], others: &[M])
        ensures { Forgets (map M.facet_of some.now ++ map M.facet_of others.now) self.old self.new }
    {
        self.forget_all(some);
        self.forget_all(others);
    }

    fn note_all<M: Member>(&mut self, members: &[M], mention: Mention) -> Result<(), AllocError>
        ensures ok { OnOk result (Notes mention (map M.facet_of members.now) self.old self.new) }
        ensures err { OnErr result (NoteTheSame self.old self.new) }
    {
        for (i, member) in members.iter().enumerate() {
            if let Err(error) = self.note_one(member.facet(), mention) {
                self.forget_all(&members[..i]);
                return Err(error);
            }
        }
        Ok(())
    }

    fn forget_all<M: Member>(&mut self, members: &[M])
        ensures { Forgets (map M.facet_of members.now) self.old self.new }
    {
        for member in members {
            self.forget_one(member.facet());
        }
    }

    #[tactic(auto, unfolding(crate::specs::Mentions::mentions))]
    fn note_one(&mut self, facet: Facet, mention: Mention) -> Result<(), AllocError>
        ensures ok { OnOk result (Notes mention (facet ∷ []) self.old self.new) }
        ensures err { OnErr result (NoteTheSame self.old self.new) }
    {
        match self.lists.get_mut(&facet) {
            Some(list) => put_last(list, &mut self.followed, mention),
            None => self.note_first(facet, mention),
        }
    }

    /// Makes the list of a facet that has none.
    #[tactic(auto, unfolding(crate::specs::Mentions::mentions))]
    fn note_first(&mut self, facet: Facet, mention: Mention) -> Result<(), AllocError>
        requires { mentions self.old facet ≡ [] }
        ensures ok { OnOk result (Notes mention (facet ∷ []) self.old self.new) }
        ensures err { OnErr result (NoteTheSame self.old self.new) }
    {
        let mut list = Vec::with_capacity(self.alloc, 1)?;
        list.push(mention)?;
        self.lists.insert(facet, list)?;
        Ok(())
    }

    #[tactic(auto, unfolding(crate::specs::Mentions::mentions))]
    fn forget_one(&mut self, facet: Facet)
        ensures { Forgets (facet ∷ []) self.old self.new }
    {
        if let Some(list) = self.lists.get_mut(&facet) {
            list.pop();
        }
    }
}

/// Puts the mention at the end of the list. The change of the one before it is followed from now on.
fn put_last(
    list: &mut Vec<Mention>,
    followed: &mut IndexSet<u64>,
    mention: Mention,
) -> Result<(), AllocError>
    ensures put { OnOk result (list.new.items ≡ list.old.items ++ mention ∷ []) }
    ensures followed { OnOk result (LastIsFollowed list.old.items followed.old followed.new) }
    ensures same { OnErr result (list.new.items ≡ list.old.items) }
    ensures kept { KeepsFollowed followed.old followed.new }
{
    if let Some(last) = list.last() {
        followed.insert(last.number)?;
    }
    list.push(mention)?;
    Ok(())
}
