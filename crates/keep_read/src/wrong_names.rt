ghost use Rattle.std.specs.Prelude.{◌≡◌, ◌++◌, ◌<◌, ◌≤◌, IfOk, OnOk, filter, length, map};
ghost use Rattle.keep_names.specs.Sha256.{sha256};
ghost use Rattle.keep_read.specs.Findings as spec;
ghost use Rattle.keep_read.specs.Findings.{misnamed_in};
ghost use Rattle.keep_read.specs.Hashed as hashed;
ghost use Rattle.keep_read.specs.declared.finding.Finding.TheVariants.{WrongName};

use crate::finding::Finding;
use keep_catalog::Hashing;
use keep_names::{FileName, Id};
use keep_repo::Repo;
use std::alloc::{AllocError, Global};

/// So many files at most are hashed together.
const MOST_FILES: usize = 4096;

/// Of several files that are hashed together, so many bytes at most: 256 MiB.
const MOST_BYTES: usize = 268_435_456;

/// The files whose bytes have another SHA-256. They are hashed by this, many at a time.
pub(crate) fn wrong_names<H: Hashing>(
    alloc: Global,
    repo: &Repo,
    hashing: &mut H,
) -> Result<Vec<Finding>, AllocError>
    ensures { IfOk result (λ findings. findings.items ≡ map WrongName (misnamed_in repo.now)) }
{
    let (names, _packs) = repo.list()?;
    hashing.begin(size_of_files(repo, &names));
    let mut findings = Vec::new(alloc);
    let mut rest = names.as_slice();
    while !rest.is_empty() {
        let (batch, later) = rest.split_at(batch_len(repo, rest));
        hash_files(alloc, repo, hashing, batch, &mut findings)?;
        rest = later;
    }
    Ok(findings)
}

/// The bytes of these files together.
fn size_of_files(repo: &Repo, names: &[FileName]) -> u64 {
    let mut size: u64 = 0;
    for name in names {
        size = size.saturating_add(bytes_of(repo, *name).len() as u64);
    }
    size
}

/// How many of the first files are hashed together. It is one at least.
fn batch_len(repo: &Repo, names: &[FileName]) -> usize
    requires { 0 < length names.now }
    ensures some { 0 < result }
    ensures within { result ≤ length names.now }
{
    let mut size: usize = 0;
    for (count, name) in names.iter().enumerate() {
        size = size.saturating_add(bytes_of(repo, *name).len());
        if count > 0 && (count == MOST_FILES || size > MOST_BYTES) {
            return count;
        }
    }
    names.len()
}

/// Hashes these files together, and adds those that have another name.
fn hash_files<H: Hashing>(
    alloc: Global,
    repo: &Repo,
    hashing: &mut H,
    names: &[FileName],
    findings: &mut Vec<Finding>,
) -> Result<(), AllocError>
    ensures { OnOk result (findings.new.items
        ≡ findings.old.items ++ map WrongName (filter (spec.is_misnamed repo.now) names.now)) }
{
    let pieces = pieces_of(alloc, repo, names)?;
    let ids = hashing.ids(alloc, &pieces)?;
    add_misnamed(repo, names, &ids, findings)
}

/// The bytes of each file.
fn pieces_of<'a>(
    alloc: Global,
    repo: &'a Repo,
    names: &[FileName],
) -> Result<Vec<&'a [u8]>, AllocError>
    ensures { IfOk result (λ pieces. map (λ piece. piece.now) pieces.items ≡ map (hashed.bytes_of repo.entry.now) names.now) }
{
    let mut pieces = Vec::with_capacity(alloc, names.len())?;
    for name in names {
        pieces.push(bytes_of(repo, *name))?;
    }
    Ok(pieces)
}

/// The bytes of the file, none where it isn't there.
fn bytes_of(repo: &Repo, name: FileName) -> &[u8]
    ensures { result.now ≡ hashed.bytes_of repo.entry.now name }
{
    match repo.get(name) {
        Some(bytes) => bytes.as_slice(),
        None => &[],
    }
}

/// Adds those of these files that have another name, where these are the ids of their bytes.
fn add_misnamed(
    repo: &Repo,
    names: &[FileName],
    ids: &[Id],
    findings: &mut Vec<Finding>,
) -> Result<(), AllocError>
    requires { map (λ id. id.0) ids.now ≡ map (λ name. sha256 (hashed.bytes_of repo.now name)) names.now }
    ensures { OnOk result (findings.new.items
        ≡ findings.old.items ++ map WrongName (filter (spec.is_misnamed repo.now) names.now)) }
{
    for (name, id) in names.iter().zip(ids) {
        if is_misnamed(repo, *name, *id) {
            findings.push(Finding::WrongName(*name))?;
        }
    }
    Ok(())
}

/// Whether the file is there and its bytes, whose id this is, have another SHA-256.
fn is_misnamed(repo: &Repo, name: FileName, id: Id) -> bool
    requires { id.0 ≡ sha256 (hashed.bytes_of repo.now name) }
    ensures { result ≡ spec.is_misnamed repo.now name }
{
    repo.get(name).is_some() && id != name.id
}
