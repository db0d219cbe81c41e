ghost use Rattle.std.specs.Prelude.{◌≡◌, ◌↔◌, true, not, is_some, is_none, MatchOption, IsOk};
ghost use Rattle.keep_repo.specs.Facet.{Stored, Marked};
ghost use Rattle.keep_change.specs.Change.{is_met, is_as_written, is_as_asked, written, asked, holds_same};
ghost use Rattle.keep_change.specs.Form.{lesser, least_where, least_unmet};

use crate::change::{Change, PackMark};
use crate::holder::Holder;
use crate::member::Member;
use crate::stored_file::StoredFile;
use keep_repo::Facet;

impl Change {
    /// The least facet that isn't as the change asks, file facets first. It takes no memory.
    pub fn meets<H: Holder>(&self, holder: &H) -> Result<(), Facet>
        ensures met { IsOk result ↔ (is_met (H.holding holder.now) self.now ≡ true) }
        ensures least { let unmet = least_unmet (H.holding holder.now) self.now in
            MatchOption unmet (result ≡ Ok tt) (λ facet. result ≡ Err facet) }
    {
        match lesser(
            self.least_written_unmet(holder),
            self.least_asked_unmet(holder),
        ) {
            Some(facet) => Err(facet),
            None => Ok(()),
        }
    }

    fn least_written_unmet<H: Holder>(&self, holder: &H) -> Option<Facet>
        ensures { result ≡ least_where
            (λ w. w.facet) (λ w. not (is_as_written (H.holding holder.now) w)) (written self.now) }
    {
        let adds = least_filled(self.adds.as_slice(), holder);
        let drops = least_other_file(self.drops.as_slice(), holder);
        let sets = least_filled(self.sets.as_slice(), holder);
        let clears = least_other_mark(self.clears.as_slice(), holder);
        lesser(adds, lesser(drops, lesser(sets, clears)))
    }

    fn least_asked_unmet<H: Holder>(&self, holder: &H) -> Option<Facet>
        ensures { result ≡ least_where
            (λ a. a.facet) (λ a. not (is_as_asked (H.holding holder.now) a)) (asked self.now) }
    {
        let present = least_empty(self.present.as_slice(), holder);
        let absent = least_filled(self.absent.as_slice(), holder);
        let marked = least_empty(self.marked.as_slice(), holder);
        let unmarked = least_filled(self.unmarked.as_slice(), holder);
        lesser(present, lesser(absent, lesser(marked, unmarked)))
    }
}

fn lesser(one: Option<Facet>, other: Option<Facet>) -> Option<Facet>
    ensures { result ≡ lesser one other }
{
    match (one, other) {
        (Some(a), Some(b)) => Some(a.min(b)),
        (None, found) => found,
        (found, None) => found,
    }
}

/// The least facet that is filled.
fn least_filled<M: Member, H: Holder>(members: &[M], holder: &H) -> Option<Facet>
    ensures { result ≡ least_where
        M.facet_of (λ member. is_some (H.holding holder.now (M.facet_of member))) members.now }
{
    let mut least = None;
    for member in members {
        let facet = member.facet();
        if holder.is_filled(facet) {
            least = lesser(least, Some(facet));
        }
    }
    least
}

/// The least facet that is empty.
fn least_empty<M: Member, H: Holder>(members: &[M], holder: &H) -> Option<Facet>
    ensures { result ≡ least_where
        M.facet_of (λ member. not (is_some (H.holding holder.now (M.facet_of member)))) members.now }
{
    let mut least = None;
    for member in members {
        let facet = member.facet();
        if !holder.is_filled(facet) {
            least = lesser(least, Some(facet));
        }
    }
    least
}

/// The least file that isn't there with just its bytes.
fn least_other_file<H: Holder>(files: &[StoredFile], holder: &H) -> Option<Facet>
    ensures { let holding = H.holding holder.now in result ≡ least_where (λ file. Facet.File file.name)
        (λ file. not (holds_same (holding (Facet.File file.name)) (Some (Stored file.bytes)))) files.now }
{
    let mut least = None;
    for file in files {
        let name = file.name();
        if !holder.has_file(name, file.bytes()) {
            least = lesser(least, Some(Facet::File(name)));
        }
    }
    least
}

/// The least mark that isn't just this one.
fn least_other_mark<H: Holder>(marks: &[PackMark], holder: &H) -> Option<Facet>
    ensures { let holding = H.holding holder.now in result ≡ least_where (λ set. Facet.Mark set.pack)
        (λ set. not (holds_same (holding (Facet.Mark set.pack)) (Some (Marked set.mark)))) marks.now }
{
    let mut least = None;
    for set in marks {
        if !holder.has_mark(set.pack, set.mark) {
            least = lesser(least, Some(Facet::Mark(set.pack)));
        }
    }
    least
}
