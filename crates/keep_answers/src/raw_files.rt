ghost use Rattle.std.specs.Prelude.{◌≡◌, [], ◌∷◌, IfOk};
ghost use Rattle.keep_answers.specs.Files.{added_file, added_in, bytes_in, dropped_file, file_meant, least, names_of_kind};

use keep_change::{Change, Listed, StoredFile};
use keep_journal::History;
use keep_lines::MeantFile;
use keep_names::{FileName, Kind};
use keep_repo::{Bytes, Repo};
use std::alloc::{AllocError, Global};

/// The file that the target means.
pub(crate) fn find(history: &History, kind: Kind, target: MeantFile) -> Option<FileName>
    ensures { result ≡ file_meant history.now.journal kind target }
{
    match target {
        MeantFile::Named(id) => Some(FileName { kind, id }),
        MeantFile::AddedBy(n) => added_by(history, n, kind),
    }
}

/// The change that adds one file of these bytes, under their SHA-256.
pub(crate) fn added(alloc: Global, kind: Kind, bytes: Vec<u8>) -> Result<Change, AllocError>
    ensures { IfOk result (λ change. change ≡ added_file kind bytes.items) }
{
    let file = StoredFile::of(alloc, kind, bytes)?;
    let mut change = Change::new(alloc);
    change.adds = one_file(alloc, file)?;
    Ok(change)
}

/// The change that drops the file as it is in this repository. Where it isn't there the change
/// asks for one without bytes, so that it isn't met.
pub(crate) fn dropped(alloc: Global, repo: &Repo, name: FileName) -> Result<Change, AllocError>
    ensures { IfOk result (λ change. change ≡ dropped_file repo.now name) }
{
    let bytes = bytes_of(alloc, repo, name)?;
    let mut change = Change::new(alloc);
    change.drops = one_file(alloc, StoredFile::under(name, bytes))?;
    Ok(change)
}

/// The file's bytes, none where it isn't there.
fn bytes_of(alloc: Global, repo: &Repo, name: FileName) -> Result<Bytes, AllocError>
    ensures { IfOk result (λ bytes. bytes ≡ bytes_in repo.now name) }
{
    match repo.get(name) {
        Some(held) => held.clone(),
        None => Bytes::new(alloc, Vec::new(alloc)),
    }
}

/// The least file of this kind among those that change n added, final or not.
fn added_by(history: &History, n: u64, kind: Kind) -> Option<FileName>
    ensures { result ≡ added_in history.now.journal n kind }
{
    least_of(history.names_added(n)?, kind)
}

/// The least of these names that have the kind.
fn least_of(names: &[FileName], kind: Kind) -> Option<FileName>
    ensures { result ≡ least (names_of_kind kind names.now) }
{
    let names = names.iter().copied();
    names.filter(|name| name.kind == kind).min()
}

fn one_file(alloc: Global, file: StoredFile) -> Result<Listed<StoredFile>, AllocError>
    ensures { IfOk result (λ files. files ≡ file ∷ []) }
{
    let mut files = Vec::with_capacity(alloc, 1)?;
    files.push(file)?;
    Ok(Listed::from_vec(files))
}
