ghost use Rattle.std.specs.Prelude.{◌≡◌, is_some, length, map, min, nat_le};
ghost use Rattle.std.specs.List.{list_any};
ghost use Rattle.keep_repo.specs.Facet.{Stored, Marked};
ghost use Rattle.keep_change.specs.Change.{holds_same};
ghost use Rattle.keep_change.specs.Form.{ListsInOrder, IsWellFormed};
ghost use Rattle.keep_change.specs.Limits.{facet_limit};
ghost use Rattle.keep_change.specs.Touch.{facets, writes, touches, leans_on, before_of};

use crate::change::Change;
use crate::member::{Member, contains, find};
use keep_names::{FileName, Id};
use keep_repo::{Bytes, Facet, Mark};

/// The most facets that a change may touch.
const MAX_FACETS: usize = 65_536;

impl Change {
    /// Whether the change writes the facet. It takes log n steps for n facets.
    pub fn writes(&self, facet: Facet) -> bool
        requires { ListsInOrder self.now }
        ensures { result ≡ writes self.now facet }
    {
        contains(self.adds.as_slice(), facet)
            || contains(self.drops.as_slice(), facet)
            || contains(self.sets.as_slice(), facet)
            || contains(self.clears.as_slice(), facet)
    }

    /// Whether the facet stands in one of the eight lists. It takes log n steps for n facets.
    pub fn touches(&self, facet: Facet) -> bool
        requires { ListsInOrder self.now }
        ensures { result ≡ touches self.now facet }
    {
        self.writes(facet)
            || contains(self.present.as_slice(), facet)
            || contains(self.absent.as_slice(), facet)
            || contains(self.marked.as_slice(), facet)
            || contains(self.unmarked.as_slice(), facet)
    }

    /// How many facets the change touches, at most `usize::MAX`.
    pub fn facet_count(&self) -> usize
        ensures { result ≡ min (length (facets self.now)) usize.MAX }
    {
        let adds = self.adds.as_slice().len();
        let drops = self.drops.as_slice().len();
        let sets = self.sets.as_slice().len();
        let clears = self.clears.as_slice().len();
        let present = self.present.as_slice().len();
        let absent = self.absent.as_slice().len();
        let marked = self.marked.as_slice().len();
        let unmarked = self.unmarked.as_slice().len();
        let files = adds
            .saturating_add(drops)
            .saturating_add(present)
            .saturating_add(absent);
        let marks = sets
            .saturating_add(clears)
            .saturating_add(marked)
            .saturating_add(unmarked);
        files.saturating_add(marks)
    }

    /// Whether the change touches no more facets than a change may.
    pub fn is_within_limit(&self) -> bool
        ensures { result ≡ nat_le (length (facets self.now)) facet_limit }
    {
        self.facet_count() <= MAX_FACETS
    }

    /// Whether the change touches a facet that the other one writes.
    pub fn leans_on(&self, other: &Change) -> bool
        requires { ListsInOrder self.now }
        ensures { result ≡ leans_on self.now other.now }
    {
        self.touches_some(other.adds.as_slice())
            || self.touches_some(other.drops.as_slice())
            || self.touches_some(other.sets.as_slice())
            || self.touches_some(other.clears.as_slice())
    }

    /// Whether the change drops the file, or clears the mark.
    pub fn empties(&self, facet: Facet) -> bool
        requires { IsWellFormed self.now }
        ensures { result ≡ is_some (before_of self.now facet) }
    {
        contains(self.drops.as_slice(), facet) || contains(self.clears.as_slice(), facet)
    }

    /// Whether the change drops the file of this name with just these bytes.
    pub fn drops_file(&self, name: FileName, bytes: &Bytes) -> bool
        requires { IsWellFormed self.now }
        ensures { result ≡ holds_same (before_of self.now (Facet.File name)) (Some (Stored bytes.now)) }
    {
        match find(self.drops.as_slice(), Facet::File(name)) {
            Some(file) => file.bytes().as_slice() == bytes.as_slice(),
            None => false,
        }
    }

    /// Whether the change clears just this mark of the pack.
    pub fn clears_mark(&self, pack: Id, mark: Mark) -> bool
        requires { IsWellFormed self.now }
        ensures { result ≡ holds_same (before_of self.now (Facet.Mark pack)) (Some (Marked mark)) }
    {
        match find(self.clears.as_slice(), Facet::Mark(pack)) {
            Some(set) => set.mark == mark,
            None => false,
        }
    }

    fn touches_some<M: Member>(&self, members: &[M]) -> bool
        requires { ListsInOrder self.now }
        ensures { result ≡ list_any (touches self.now) (map M.facet_of members.now) }
    {
        for member in members {
            if self.touches(member.facet()) {
                return true;
            }
        }
        false
    }
}
