ghost use Rattle.std.specs.Prelude.{◌≡◌, map, is_some, option_copied};
ghost use Rattle.std.specs.List.{list_any, find};
ghost use Rattle.keep_repo.specs.Facet.{facet_eq};
ghost use Rattle.keep_change.specs.Form.{IsInOrder};

use crate::change::PackMark;
use crate::stored_file::StoredFile;
use keep_names::{FileName, Id};
use keep_repo::Facet;

/// A member of one of a change's lists. It speaks of one facet.
pub trait Member {
    ghost use Rattle.keep_repo.specs.declared.facet.Facet.{Facet};

    /// The facet that it speaks of.
    ghost facet_of: { Self → Facet };

    fn facet(&self) -> Facet
        ensures { result ≡ facet_of self.now };
}

impl Member for StoredFile {
    ghost use Rattle.keep_repo.specs.declared.facet.Facet.TheVariants.{File};

    ghost facet_of = { λ file. File file.name };

    fn facet(&self) -> Facet {
        Facet::File(self.name())
    }
}

impl Member for PackMark {
    ghost use Rattle.keep_repo.specs.declared.facet.Facet.TheVariants.{Mark};

    ghost facet_of = { λ set. Mark set.pack };

    fn facet(&self) -> Facet {
        Facet::Mark(self.pack)
    }
}

impl Member for FileName {
    ghost use Rattle.keep_repo.specs.declared.facet.Facet.TheVariants.{File};

    ghost facet_of = { File };

    fn facet(&self) -> Facet {
        Facet::File(*self)
    }
}

impl Member for Id {
    ghost use Rattle.keep_repo.specs.declared.facet.Facet.TheVariants.{Mark};

    ghost facet_of = { Mark };

    fn facet(&self) -> Facet {
        Facet::Mark(*self)
    }
}

/// The member that speaks of this facet, in a list that is in order.
pub(crate) fn find<M: Member>(members: &[M], facet: Facet) -> Option<&M>
    requires { IsInOrder (map M.facet_of members.now) }
    ensures { option_copied result ≡ find (λ member. facet_eq facet (M.facet_of member)) members.now }
{
    match members.binary_search_by_key(&facet, |member| member.facet()) {
        Ok(place) => Some(&members[place]),
        Err(_) => None,
    }
}

/// Whether a member speaks of this facet, in a list that is in order.
pub(crate) fn contains<M: Member>(members: &[M], facet: Facet) -> bool
    requires { IsInOrder (map M.facet_of members.now) }
    ensures { result ≡ list_any (facet_eq facet) (map M.facet_of members.now) }
{
    find(members, facet).is_some()
}
