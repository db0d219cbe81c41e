ghost use Rattle.std.specs.Prelude.{◌≡◌, None, Some};
ghost use Rattle.std.specs.List.{list_all};
ghost use Rattle.keep_repo.specs.Facet.{Stored, Marked};
ghost use Rattle.keep_change.specs.Change.{is_ready, holds_same};
ghost use Rattle.keep_change.specs.Halves.{turned};

use crate::change::{Change, PackMark};
use crate::holder::Holder;
use crate::member::Member;
use crate::stored_file::StoredFile;
use crate::turn::Turn;
use keep_repo::Facet;

impl Change {
    /// Whether each facet that the change writes, turned this way, is as it asks. Those that it only looks at aren't
    /// asked. It takes no memory.
    pub fn is_ready<H: Holder>(&self, turn: Turn, holder: &H) -> bool
        ensures { result ≡ is_ready (H.holding holder.now) (turned turn self.now) }
    {
        are_empty(self.coming_files(turn), holder)
            && are_there(self.going_files(turn), holder)
            && are_empty(self.coming_marks(turn), holder)
            && are_set(self.going_marks(turn), holder)
    }
}

/// Whether nothing holds any of the facets.
fn are_empty<M: Member, H: Holder>(members: &[M], holder: &H) -> bool
    ensures { result ≡ list_all (λ member. holds_same (H.holding holder.now (M.facet_of member)) None) members.now }
{
    members
        .iter()
        .all(|member| !holder.is_filled(member.facet()))
}

/// Whether each file is there with just its bytes.
fn are_there<H: Holder>(files: &[StoredFile], holder: &H) -> bool
    ensures { let holding = H.holding holder.now in result ≡ list_all
        (λ file. holds_same (holding (Facet.File file.name)) (Some (Stored file.bytes))) files.now }
{
    files
        .iter()
        .all(|file| holder.has_file(file.name(), file.bytes()))
}

/// Whether each mark is just this one.
fn are_set<H: Holder>(marks: &[PackMark], holder: &H) -> bool
    ensures { let holding = H.holding holder.now in result ≡ list_all
        (λ set. holds_same (holding (Facet.Mark set.pack)) (Some (Marked set.mark))) marks.now }
{
    marks.iter().all(|set| holder.has_mark(set.pack, set.mark))
}
