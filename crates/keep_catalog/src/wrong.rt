ghost use Rattle.std.specs.Prelude.{◌≡◌, ◌++◌, [], ◌∷◌, IfOk, OnOk, map, option_to_list, true};
ghost use Rattle.std.specs.Prelude.{if◌then◌else◌};
ghost use Rattle.std.specs.BTreeSet.{contains};
ghost use Rattle.std.specs.List.{filter_map, flat_map};
ghost use Rattle.keep_names.specs.Orders.{blob_cmp};
ghost use Rattle.keep_names.specs.declared.blob.BlobId as the_blob;
ghost use Rattle.keep_catalog.specs.Orders.{blob_eq};
ghost use Rattle.keep_catalog.specs.Places.{stored_in, packed_of};
ghost use Rattle.keep_catalog.specs.Kept.{IsHashedIn};
ghost use Rattle.keep_catalog.specs.Wrong.{wrong_at, wrong_blobs_in, wrong_in};
ghost use Rattle.keep_index.specs.Joining.{first_of_each};

use crate::bytes_there::is_honest;
use crate::catalog::Catalog;
use crate::file_reading::read_pack;
use crate::spot::PackedBlob;
use crate::stored::Stored;
use keep_names::{Blob, BlobId, FileName, Id, Kind};
use keep_repo::Repo;
use std::alloc::{AllocError, Global};
use std::collections::BTreeSet;

impl<'a> Catalog<'a> {
    /// The blobs of packs that can be read whose bytes have another SHA-256 than their id: the packs by name, a
    /// pack's blobs in the order of its header, each once. What its repository hashed before isn't hashed again.
    pub fn wrong_blobs(&self, alloc: Global) -> Result<Vec<(Id, BlobId)>, AllocError>
        ensures { IfOk result (λ wrong. wrong.items ≡ wrong_blobs_in self.now) }
    {
        let packs = self.repo.ids(Kind::Pack)?;
        hash_packs(alloc, self.repo, &packs, &self.tables().stored)
    }
}

/// The wrong blobs of these packs.
fn hash_packs(
    alloc: Global,
    repo: &Repo,
    packs: &[Id],
    stored: &Stored,
) -> Result<Vec<(Id, BlobId)>, AllocError>
    requires { IsHashedIn repo.now stored.now }
    ensures { IfOk result (λ wrong. wrong.items ≡ flat_map (wrong_in repo.now) packs.now) }
{
    let mut wrong = Vec::new(alloc);
    for pack in packs {
        let blobs = hash_pack(alloc, repo, *pack, stored)?;
        note_blobs(alloc, *pack, &blobs, &mut wrong)?;
    }
    Ok(wrong)
}

/// The wrong blobs of a pack, each as often as its header has it.
fn hash_pack(
    alloc: Global,
    repo: &Repo,
    pack: Id,
    stored: &Stored,
) -> Result<Vec<BlobId>, AllocError>
    requires { IsHashedIn repo.now stored.now }
    ensures { IfOk result (λ blobs.
        blobs.items ≡ filter_map (wrong_at repo.now) (stored_in repo.now pack)) }
{
    let Some(bytes) = repo.get(FileName::pack(pack)) else {
        return Ok(Vec::new(alloc));
    };
    let (entries, _why) = read_pack(alloc, bytes.as_slice())?;
    hash_entries(alloc, repo, pack, &entries, stored)
}

fn hash_entries(
    alloc: Global,
    repo: &Repo,
    pack: Id,
    entries: &[Blob],
    stored: &Stored,
) -> Result<Vec<BlobId>, AllocError>
    requires { IsHashedIn repo.now stored.now }
    ensures { IfOk result (λ blobs.
        blobs.items ≡ filter_map (wrong_at repo.now) (map (packed_of pack) entries.now)) }
{
    let mut blobs = Vec::new(alloc);
    for entry in entries {
        hash_place(repo, PackedBlob::of(pack, *entry), stored, &mut blobs)?;
    }
    Ok(blobs)
}

/// Adds the blob of a place, if its bytes have another hash.
fn hash_place(
    repo: &Repo,
    place: PackedBlob,
    stored: &Stored,
    blobs: &mut Vec<BlobId>,
) -> Result<(), AllocError>
    requires { IsHashedIn repo.now stored.now }
    ensures { OnOk result
        (blobs.new.items ≡ blobs.old.items ++ option_to_list (wrong_at repo.now place)) }
{
    let honest = is_honest(repo, stored, place);
    if honest {
        return Ok(());
    }
    blobs.push(place.blob)?;
    Ok(())
}

/// Tells each of a pack's blobs once.
fn note_blobs(
    alloc: Global,
    pack: Id,
    blobs: &[BlobId],
    wrong: &mut Vec<(Id, BlobId)>,
) -> Result<(), AllocError>
    ensures { OnOk result (wrong.new.items
        ≡ wrong.old.items ++ map (λ blob. (pack, blob)) (first_of_each blob_eq blobs.now)) }
{
    let mut told = BTreeSet::new(alloc);
    for blob in blobs {
        note_first(pack, *blob, &mut told, wrong)?;
    }
    Ok(())
}

/// Tells a blob of a pack that wasn't told.
fn note_first(
    pack: Id,
    blob: BlobId,
    told: &mut BTreeSet<BlobId>,
    wrong: &mut Vec<(Id, BlobId)>,
) -> Result<(), AllocError>
    ensures told { OnOk result ((q : the_blob.BlobId) → contains blob_cmp told.new q
        ≡ if blob_eq blob q then true else contains blob_cmp told.old q) }
    ensures wrong { OnOk result (wrong.new.items
        ≡ wrong.old.items ++ (if contains blob_cmp told.old blob then [] else (pack, blob) ∷ [])) }
{
    let added = told.insert(blob)?;
    if added {
        wrong.push((pack, blob))?;
    }
    Ok(())
}
