use keep_catalog::{ReachError, Unread};
use keep_names::{BlobId, FileName, Id};

/// Something that is wrong with a repository.
#[derive(Clone, Copy, PartialEq, Eq)]
pub enum Finding {
    /// The bytes of the file have another SHA-256 than its name.
    WrongName(FileName),
    /// The file can't be read.
    Unreadable(Unread),
    /// The header of this pack has the blob at bytes that have another id.
    WrongBlob(Id, BlobId),
    /// The snapshot of this name can be read and doesn't reach all that it names.
    Broken(Id, ReachError),
}

impl Finding {
    ghost use Rattle.std.specs.Prelude.{◌≡◌};
    ghost use Rattle.keep_read.specs.Refusals.{finding_number};

    /// The number of the refusal that it carries, for the two that carry one.
    pub fn number(&self) -> Option<u8>
        ensures { result ≡ finding_number self.now }
    {
        match self {
            Finding::Unreadable(file) => file.refusal.number(),
            Finding::Broken(_, refusal) => refusal.number(),
            Finding::WrongName(_) | Finding::WrongBlob(_, _) => None,
        }
    }
}
