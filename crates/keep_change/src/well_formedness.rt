ghost use Rattle.std.specs.Prelude.{◌≡◌, ◌≢◌, ◌≤◌, ◌↔◌, [], IsTrue, map, count_by};
ghost use Rattle.std.specs.List.{list_all};
ghost use Rattle.keep_repo.specs.Facet.{facet_eq};
ghost use Rattle.keep_change.specs.Change.{written};
ghost use Rattle.keep_change.specs.Form.{IsInOrder, ListsInOrder, HasNoFacetTwice, AreNamedByBytes, IsWellFormed, is_once};
ghost use Rattle.keep_change.specs.Touch.{facets};

use crate::change::Change;
use crate::member::{Member, contains};
use crate::stored_file::StoredFile;
use keep_repo::Facet;

impl Change {
    /// Whether the change can be committed to some repository. It takes no memory, and n log n
    /// steps for n facets.
    pub fn well_formed(&self) -> bool
        ensures { IsTrue result ↔ IsWellFormed self.now }
    {
        self.lists_in_order()
            && self.has_no_facet_twice()
            && are_named_by_bytes(self.adds.as_slice())
            && self.writes_something()
    }

    fn lists_in_order(&self) -> bool
        ensures { IsTrue result ↔ ListsInOrder self.now }
    {
        in_order(self.adds.as_slice())
            && in_order(self.drops.as_slice())
            && in_order(self.sets.as_slice())
            && in_order(self.clears.as_slice())
            && in_order(self.present.as_slice())
            && in_order(self.absent.as_slice())
            && in_order(self.marked.as_slice())
            && in_order(self.unmarked.as_slice())
    }

    /// How often the facet stands in the lists.
    fn times(&self, facet: Facet) -> u8
        requires { ListsInOrder self.now }
        ensures { result ≡ count_by (facet_eq facet) (facets self.now) }
    {
        let adds = times_in(self.adds.as_slice(), facet);
        let drops = times_in(self.drops.as_slice(), facet);
        let sets = times_in(self.sets.as_slice(), facet);
        let clears = times_in(self.clears.as_slice(), facet);
        let present = times_in(self.present.as_slice(), facet);
        let absent = times_in(self.absent.as_slice(), facet);
        let marked = times_in(self.marked.as_slice(), facet);
        let unmarked = times_in(self.unmarked.as_slice(), facet);
        adds + drops + sets + clears + present + absent + marked + unmarked
    }

    fn has_no_facet_twice(&self) -> bool
        requires { ListsInOrder self.now }
        ensures { IsTrue result ↔ HasNoFacetTwice self.now }
    {
        self.has_each_once(self.adds.as_slice())
            && self.has_each_once(self.drops.as_slice())
            && self.has_each_once(self.sets.as_slice())
            && self.has_each_once(self.clears.as_slice())
            && self.has_each_once(self.present.as_slice())
            && self.has_each_once(self.absent.as_slice())
            && self.has_each_once(self.marked.as_slice())
            && self.has_each_once(self.unmarked.as_slice())
    }

    fn has_each_once<M: Member>(&self, members: &[M]) -> bool
        requires { ListsInOrder self.now }
        ensures { result ≡ list_all (λ member. is_once self.now (M.facet_of member)) members.now }
    {
        for member in members {
            if self.times(member.facet()) != 1 {
                return false;
            }
        }
        true
    }

    fn writes_something(&self) -> bool
        ensures { IsTrue result ↔ (written self.now ≢ []) }
    {
        !(self.adds.as_slice().is_empty()
            && self.drops.as_slice().is_empty()
            && self.sets.as_slice().is_empty()
            && self.clears.as_slice().is_empty())
    }
}

/// Whether each file is named by the SHA-256 of its bytes.
fn are_named_by_bytes(files: &[StoredFile]) -> bool
    ensures { IsTrue result ↔ AreNamedByBytes files.now }
{
    files.iter().all(|file| file.is_named_by_bytes())
}

/// Whether each member's facet is above the one before.
fn in_order<M: Member>(members: &[M]) -> bool
    ensures { IsTrue result ↔ IsInOrder (map M.facet_of members.now) }
{
    members.is_sorted_by(|one, next| one.facet().cmp(&next.facet()).is_lt())
}

/// How often the facet stands in a list that is in order: once, or not at all.
fn times_in<M: Member>(members: &[M], facet: Facet) -> u8
    requires { IsInOrder (map M.facet_of members.now) }
    ensures times { result ≡ count_by (facet_eq facet) (map M.facet_of members.now) }
    ensures once { result ≤ 1 }
{
    u8::from(contains(members, facet))
}
