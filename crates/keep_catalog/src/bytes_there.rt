ghost use Rattle.std.specs.Prelude.{◌≡◌, option_map};
ghost use Rattle.keep_catalog.specs.Places as spec;
ghost use Rattle.keep_catalog.specs.Kept.{IsHashedIn};

use crate::spot::{PackedBlob, Spot};
use crate::stored::Stored;
use keep_names::{FileName, id_of};
use keep_repo::Repo;

/// The bytes at the spot, if its pack is there and has as many.
pub(crate) fn bytes_at(repo: &Repo, spot: Spot) -> Option<&[u8]>
    ensures { option_map (λ bytes. bytes.now) result ≡ spec.bytes_at repo.entry.now spot }
{
    let Some(bytes) = repo.get(FileName::pack(spot.pack)) else {
        return None;
    };
    slice_of(bytes.as_slice(), spot.offset, spot.length)
}

/// As many bytes from the offset on.
fn slice_of(bytes: &[u8], offset: u64, count: u32) -> Option<&[u8]>
    ensures { option_map (λ slice. slice.now) result ≡ spec.slice_of offset count bytes.entry.now }
{
    let start = offset as usize;
    let count = count as usize;
    if start > bytes.len() || count > bytes.len() - start {
        return None;
    }
    Some(&bytes[start..start + count])
}

/// Whether the bytes of the place have the blob's id. They are hashed, unless they were before.
pub(crate) fn is_honest(repo: &Repo, stored: &Stored, place: PackedBlob) -> bool
    requires { IsHashedIn repo.now stored.now }
    ensures { result ≡ spec.is_honest repo.now place.blob place.spot }
{
    match stored.get(&place).copied() {
        Some(Some(is_honest)) => is_honest,
        _ => has_hash(repo, place),
    }
}

/// Hashes the bytes of the place.
pub(crate) fn has_hash(repo: &Repo, place: PackedBlob) -> bool
    ensures { result ≡ spec.is_honest repo.now place.blob place.spot }
{
    match bytes_at(repo, place.spot) {
        Some(bytes) => id_of(bytes) == place.blob.id,
        None => false,
    }
}
