ghost use Rattle.std.specs.Prelude.{◌≡◌, ◌<◌, ◌≤◌, length};
ghost use Rattle.keep_repo.specs.Repository.{Repository};
ghost use Rattle.keep_catalog.specs.Kept.{HaveIds, IsHashedIn, IsStoredIn};
ghost use Rattle.keep_catalog.specs.Places as spec;

use crate::bytes_there::bytes_at;
use crate::spot::PackedBlob;
use crate::stored::Stored;
use keep_hashing::Hashing;
use keep_names::Id;
use keep_repo::Repo;
use std::alloc::{AllocError, Global};

/// So many pieces at most are hashed together.
const MOST_PIECES: usize = 4096;

/// Of several pieces that are hashed together, so many bytes at most: 16 MiB.
const MOST_BYTES: u64 = 16_777_216;

/// Hashes these places. Where memory runs out, some are.
pub(crate) fn hash_places<H: Hashing>(
    alloc: Global,
    repo: &Repo,
    stored: &mut Stored,
    hashing: &mut H,
    places: &[PackedBlob],
) -> Result<(), AllocError>
    requires stored { IsStoredIn repo.now stored.old }
    requires hashed { IsHashedIn repo.now stored.old }
    ensures stored { IsStoredIn repo.now stored.new }
    ensures hashed { IsHashedIn repo.now stored.new }
{
    hashing.begin(size_of_places(places));
    let mut rest = places;
    while !rest.is_empty() {
        let (batch, later) = rest.split_at(batch_len(rest));
        hash_batch(alloc, repo, stored, hashing, batch)?;
        rest = later;
    }
    Ok(())
}

/// The bytes of these places together.
fn size_of_places(places: &[PackedBlob]) -> u64 {
    let mut size: u64 = 0;
    for place in places {
        size = size.saturating_add(u64::from(place.spot.length));
    }
    size
}

/// How many of the first places are hashed together. It is one at least.
fn batch_len(places: &[PackedBlob]) -> usize
    requires { 0 < length places.now }
    ensures some { 0 < result }
    ensures within { result ≤ length places.now }
{
    let mut size: u64 = 0;
    for (count, place) in places.iter().enumerate() {
        size = size.saturating_add(u64::from(place.spot.length));
        if count > 0 && (count == MOST_PIECES || size > MOST_BYTES) {
            return count;
        }
    }
    places.len()
}

/// Hashes the bytes of these places together. A place isn't honest where its pack isn't there or is too short.
fn hash_batch<H: Hashing>(
    alloc: Global,
    repo: &Repo,
    stored: &mut Stored,
    hashing: &mut H,
    places: &[PackedBlob],
) -> Result<(), AllocError>
    requires stored { IsStoredIn repo.now stored.old }
    requires hashed { IsHashedIn repo.now stored.old }
    ensures stored { IsStoredIn repo.now stored.new }
    ensures hashed { IsHashedIn repo.now stored.new }
{
    let mut there = Vec::new(alloc);
    let mut pieces: Vec<&[u8]> = Vec::new(alloc);
    for place in places {
        match bytes_at(repo, place.spot) {
            Some(bytes) => {
                there.push(*place)?;
                pieces.push(bytes)?;
            }
            None => note(stored, *place, false)?,
        }
    }
    let ids = hashing.ids(alloc, &pieces)?;
    note_ids(stored, &there, &ids)
}

/// Notes of each place whether its bytes have the blob's id, where these are the ids of their bytes.
fn note_ids(stored: &mut Stored, places: &[PackedBlob], ids: &[Id]) -> Result<(), AllocError>
    ensures stored { (r : Repository) → IsStoredIn r stored.old → IsStoredIn r stored.new }
    ensures hashed { (r : Repository) → HaveIds r places.now ids.now
        → IsHashedIn r stored.old → IsHashedIn r stored.new }
{
    for (place, id) in places.iter().zip(ids) {
        note(stored, *place, *id == place.blob.id)?;
    }
    Ok(())
}

/// Notes of a place of a header whether it is honest, unless that was noted before.
fn note(stored: &mut Stored, place: PackedBlob, is_honest: bool) -> Result<(), AllocError>
    ensures stored { (r : Repository) → IsStoredIn r stored.old → IsStoredIn r stored.new }
    ensures hashed { (r : Repository) → is_honest ≡ spec.is_honest r place.blob place.spot
        → IsHashedIn r stored.old → IsHashedIn r stored.new }
{
    if let Some(None) = stored.get(&place).copied() {
        stored.insert(place, Some(is_honest))?;
    }
    Ok(())
}
