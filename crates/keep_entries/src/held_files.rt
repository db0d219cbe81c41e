ghost use Rattle.std.specs.Prelude.{◌≡◌, IfOk, map};
ghost use Rattle.keep_names.specs.Sha256.{sha256};

use keep_change::{Change, Listed, StoredFile};
use keep_hashing::Hashing;
use keep_names::Id;
use keep_repo::Repo;
use std::alloc::{AllocError, Global};

/// Gives the files of a change the bytes that are held under their names. It tells whether they are all held, and each
/// that is added is named by its bytes.
pub(crate) fn fill<H: Hashing>(
    alloc: Global,
    held: &Repo,
    hashing: &mut H,
    change: &mut Change,
) -> Result<bool, AllocError> {
    let Some(adds) = held_files(alloc, held, change.adds.as_slice())? else {
        return Ok(false);
    };
    let Some(drops) = held_files(alloc, held, change.drops.as_slice())? else {
        return Ok(false);
    };
    let Some(adds) = named_by_bytes(alloc, hashing, &adds)? else {
        return Ok(false);
    };
    change.adds = Listed::from_vec(adds);
    change.drops = Listed::from_vec(drops);
    Ok(true)
}

/// The files that are held under the names of these. There are none where one isn't held.
fn held_files(
    alloc: Global,
    held: &Repo,
    files: &[StoredFile],
) -> Result<Option<Vec<StoredFile>>, AllocError> {
    let mut found = Vec::with_capacity(alloc, files.len())?;
    for file in files {
        let Some(bytes) = held.get(file.name()) else {
            return Ok(None);
        };
        let bytes = bytes.clone()?;
        found.push(StoredFile::under(file.name(), bytes))?;
    }
    Ok(Some(found))
}

/// These files, hashed together. There are none where one isn't named by its bytes.
fn named_by_bytes<H: Hashing>(
    alloc: Global,
    hashing: &mut H,
    files: &[StoredFile],
) -> Result<Option<Vec<StoredFile>>, AllocError> {
    let pieces = pieces_of(alloc, files)?;
    let ids = hashing.ids(alloc, &pieces)?;
    with_ids(alloc, files, &ids)
}

/// The bytes of each file.
fn pieces_of(alloc: Global, files: &[StoredFile]) -> Result<Vec<&[u8]>, AllocError>
    ensures { IfOk result (λ pieces. map (λ piece. piece.now) pieces.items ≡ map (λ f. f.bytes) files.now) }
{
    let mut pieces = Vec::with_capacity(alloc, files.len())?;
    for file in files {
        pieces.push(file.bytes().as_slice())?;
    }
    Ok(pieces)
}

/// These files, which are known to be named by their bytes, where these are the ids of their bytes.
fn with_ids(
    alloc: Global,
    files: &[StoredFile],
    ids: &[Id],
) -> Result<Option<Vec<StoredFile>>, AllocError>
    requires { map (λ id. id.0) ids.now ≡ map (λ f. sha256 f.bytes) files.now }
{
    let mut named = Vec::with_capacity(alloc, files.len())?;
    for (file, id) in files.iter().zip(ids) {
        if file.name().id != *id {
            return Ok(None);
        }
        let bytes = file.bytes().clone()?;
        named.push(StoredFile::named(file.name(), bytes))?;
    }
    Ok(Some(named))
}
