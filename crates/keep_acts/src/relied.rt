ghost use Rattle.std.specs.Prelude.{◌≡◌, IfOk, filter};
ghost use Rattle.keep_read.specs.Findings as spec;

use keep_change::Change;
use keep_names::{FileName, id_of};
use keep_repo::Repo;
use std::alloc::{AllocError, Global};

/// The files that the change asks to be present whose bytes have another SHA-256 than their names, in the order in which
/// it asks for them. Where there are none, all that it relies on is there with its bytes, or isn't there.
///
/// A backup that was planned on this repository asks for the packs that it built where files of those names were there
/// already: one that is named here was damaged, and what the backup stores in it can't be restored. Each of the files is
/// hashed.
pub fn misnamed_present(
    alloc: Global,
    repo: &Repo,
    change: &Change,
) -> Result<Vec<FileName>, AllocError>
    ensures { IfOk result (λ names. names.items ≡ filter (spec.is_misnamed repo.now) change.now.present) }
{
    change
        .present
        .as_slice()
        .iter()
        .copied()
        .filter(|name| is_misnamed(repo, *name))
        .collect(alloc)
}

/// Whether the file is there and its bytes have another SHA-256.
fn is_misnamed(repo: &Repo, name: FileName) -> bool
    ensures { result ≡ spec.is_misnamed repo.now name }
{
    match repo.get(name) {
        Some(bytes) => id_of(bytes.as_slice()) != name.id,
        None => false,
    }
}
