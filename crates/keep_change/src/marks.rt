ghost use Rattle.std.specs.Prelude.{◌≡◌, IfOk};
ghost use Rattle.keep_change.specs.Marks as spec;

use crate::change::PackMark;
use crate::listed::Listed;
use keep_names::Id;
use keep_repo::{Mark, Repo};
use std::alloc::AllocError;

/// The marks of the repository, by pack.
pub fn marks_of(repo: &Repo) -> Result<Listed<PackMark>, AllocError>
    ensures { IfOk result (λ marks. marks ≡ spec.marks_of repo.now) }
{
    let entries = repo.marks()?;
    let marks = entries
        .iter()
        .map(|entry| pack_mark(entry))
        .collect(*entries.allocator())?;
    Ok(Listed::from_vec(marks))
}

fn pack_mark(entry: &(Id, Mark)) -> PackMark
    ensures { result ≡ spec.pack_mark entry.now }
{
    PackMark {
        pack: entry.0,
        mark: entry.1,
    }
}
