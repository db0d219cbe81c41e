ghost use Rattle.std.specs.Prelude.{◌≡◌, ◌≢◌, [], IfErr, IfOk, IfSome, IsTrue, OnErr, OnOk, option_map, slice_get};
ghost use Rattle.keep_change.specs.Change.{is_ready};
ghost use Rattle.keep_change.specs.Form.{HasNoFacetTwice};
ghost use Rattle.keep_change.specs.Halves.{IsBegun, begun_of, completed_of, turned};
ghost use Rattle.keep_change.specs.Result.{result_of, reverse_of};
ghost use Rattle.keep_repo.specs.Repository.{Repository, held};
ghost use Rattle.keep_catalog.specs.Files.{unread_in};
ghost use Rattle.keep_catalog.specs.Kept.{AreNew, AreThere, IsKept, with_files, without_files};
ghost use Rattle.keep_catalog.specs.declared.catalog_error.CatalogError.TheVariants as the_error;

use crate::batches::hash_places;
use crate::catalog::Catalog;
use crate::catalog_error::CatalogError;
use crate::tables::Tables;
use crate::unhashed::{unhashed, unhashed_of};
use keep_change::{Change, StoredFile, Turn};
use keep_hashing::Hashing;
use keep_names::BlobId;
use keep_repo::Repo;
use std::alloc::{AllocError, Global};
use std::marker::Model;

/// So many files that go are worth a look at how many are left.
const MANY: usize = 64;

/// A repository that changes, and lends the catalog of what it holds.
///
/// Its files are read when it is made. From then on a catalog reads none, and each change costs at most what its own
/// files hold: where many go, and less is left, what is left is read anew. Where there is no memory for that, the
/// change is made all the same: a catalog then reads all files itself, until a change finds the memory to read them
/// anew.
#[derive(Drop)]
pub struct LiveRepo {
    alloc: Global,
    repo: Repo,
    /// What its files say. None where memory ran out for it.
    tables: Option<Tables>,
}

impl Model for LiveRepo {
    ghost use Rattle.std.specs.Prelude.{IfSome};
    ghost use Rattle.keep_repo.specs.Repository.{Repository, coded_repository};
    ghost use Rattle.keep_catalog.specs.Kept.{IsKept};

    ghost Value = { Repository };

    ghost coded = { coded_repository };

    ghost view = { λ l. l.repo };

    ghost invariant = { λ l. IfSome l.tables (IsKept l.repo) };
}

impl LiveRepo {
    /// The repository. Each of its packs, indexes and snapshots is read.
    pub fn new(alloc: Global, repo: Repo) -> LiveRepo
        ensures { result ≡ repo }
    {
        let tables = Tables::of(alloc, &repo).ok();
        LiveRepo {
            alloc,
            repo,
            tables,
        }
    }

    pub fn repo(&self) -> &Repo
        ensures { result.now ≡ self.now }
    {
        &self.repo
    }

    /// Reads all files anew, where memory ran out for what they say.
    fn refresh(&mut self)
        ensures { self.new ≡ self.old }
    {
        if self.tables.is_none() {
            self.tables = Tables::of(self.alloc, &self.repo).ok();
        }
    }

    /// Hands in each blob of each pack that wasn't hashed before, to be hashed, if the files were read. Where memory
    /// runs out, some are. What was hashed is remembered.
    pub fn hash_all<H: Hashing>(&mut self, hashing: &mut H)
        ensures { self.new ≡ self.old }
    {
        if let Some(tables) = &mut self.tables {
            if let Ok(places) = unhashed(self.alloc, &tables.stored) {
                let _ = hash_places(self.alloc, &self.repo, &mut tables.stored, hashing, &places);
            }
        }
    }

    /// Hands in these blobs alone, as `hash_all` does all: each where an index lists it and it wasn't hashed before.
    pub fn hash_blobs<H: Hashing>(&mut self, blobs: &[BlobId], hashing: &mut H)
        ensures { self.new ≡ self.old }
    {
        if let Some(tables) = &mut self.tables {
            if let Ok(places) = unhashed_of(self.alloc, tables, blobs) {
                let _ = hash_places(self.alloc, &self.repo, &mut tables.stored, hashing, &places);
            }
        }
    }

    /// Makes the change. Where memory runs out for it the repository is as it was.
    pub fn apply(&mut self, change: &Change) -> Result<(), AllocError>
        requires once { HasNoFacetTwice change.now }
        requires ready { IsTrue (is_ready (held self.old) change.now) }
        ensures ok { OnOk result (self.new ≡ result_of change.now self.old) }
        ensures err { OnErr result (self.new ≡ self.old) }
    {
        self.begin(Turn::Make, change)?;
        self.complete(Turn::Make, change);
        Ok(())
    }

    /// Takes the change back. Where memory runs out for it the repository is as it was.
    pub fn unapply(&mut self, change: &Change) -> Result<(), AllocError>
        requires once { HasNoFacetTwice change.now }
        requires ready { IsTrue (is_ready (held self.old) (reverse_of change.now)) }
        ensures ok { OnOk result (self.new ≡ result_of (reverse_of change.now) self.old) }
        ensures err { OnErr result (self.new ≡ self.old) }
    {
        self.begin(Turn::TakeBack, change)?;
        self.complete(Turn::TakeBack, change);
        Ok(())
    }

    /// The first half of a change: puts all that comes. Where memory runs out for it the repository is as it was.
    pub fn begin(&mut self, turn: Turn, change: &Change) -> Result<(), AllocError>
        requires once { HasNoFacetTwice change.now }
        requires ready { IsTrue (is_ready (held self.old) (turned turn change.now)) }
        ensures ok { OnOk result (self.new ≡ begun_of (turned turn change.now) self.old) }
        ensures err { OnErr result (self.new ≡ self.old) }
    {
        change.begin(turn, &mut self.repo)?;
        self.tables = came(self.tables.take(), change.coming_files(turn));
        Ok(())
    }

    /// The second half: takes away all that goes. It can't fail.
    pub fn complete(&mut self, turn: Turn, change: &Change)
        requires once { HasNoFacetTwice change.now }
        requires begun { IsBegun (turned turn change.now) self.old }
        ensures { self.new ≡ completed_of (turned turn change.now) self.old }
    {
        change.complete(turn, &mut self.repo);
        self.tables = went(self.tables.take(), change.going_files(turn), &self.repo);
        self.refresh();
    }

    /// Takes the first half back, in place of the second one. It can't fail.
    pub fn abandon(&mut self, turn: Turn, change: &Change)
        requires once { HasNoFacetTwice change.now }
        requires begun { IsBegun (turned turn change.now) self.old }
        ensures { (before : Repository) → IsTrue (is_ready (held before) (turned turn change.now))
            → self.old ≡ begun_of (turned turn change.now) before → self.new ≡ before }
    {
        change.abandon(turn, &mut self.repo);
        self.tables = went(self.tables.take(), change.coming_files(turn), &self.repo);
        self.refresh();
    }

    /// The catalog, if each pack, index and snapshot can be read. Else the first that can't, by name.
    pub fn catalog(&self, alloc: Global) -> Result<Catalog<'_>, CatalogError>
        ensures catalog { IfOk result (λ catalog. catalog ≡ self.entry.now) }
        ensures all_read { IfOk result (λ _. unread_in self.entry.now ≡ []) }
        ensures refused { IfErr result (λ error. error ≢ the_error.Memory
            → option_map the_error.Unread (slice_get (unread_in self.entry.now) 0) ≡ Some error) }
    {
        self.read_past(alloc)?.if_all_read()
    }

    /// The catalog past the files that can't be read. Those have and list nothing.
    pub fn read_past(&self, alloc: Global) -> Result<Catalog<'_>, AllocError>
        ensures { IfOk result (λ catalog. catalog ≡ self.entry.now) }
    {
        match &self.tables {
            Some(tables) => Ok(Catalog::lent(&self.repo, tables)),
            None => Catalog::read_past(alloc, &self.repo),
        }
    }
}

/// The tables after these files came, none where memory ran out.
fn came(tables: Option<Tables>, files: &[StoredFile]) -> Option<Tables>
    ensures { (r : Repository) → AreNew files.now r.files
        → IfSome tables (IsKept r) → IfSome result (IsKept (with_files files.now r)) }
{
    let mut tables = tables?;
    match tables.add_files(files) {
        Ok(()) => Some(tables),
        Err(_) => None,
    }
}

/// The tables after these files went, none where memory ran out, or where less is left.
fn went(tables: Option<Tables>, files: &[StoredFile], left: &Repo) -> Option<Tables>
    ensures { (r : Repository) → AreThere files.now r.files
        → IfSome tables (IsKept r) → IfSome result (IsKept (without_files files.now r)) }
{
    if is_less(left, files) {
        return None;
    }
    let mut tables = tables?;
    match tables.drop_files(files) {
        Ok(()) => Some(tables),
        Err(_) => None,
    }
}

/// Whether the files are many, and the repository has fewer, and fewer bytes in them.
fn is_less(repo: &Repo, files: &[StoredFile]) -> bool {
    let count = files.len();
    count >= MANY && repo.file_count() < count && size_of_repo(repo) < size_of_files(files)
}

/// The bytes of all files of the repository, or the most where there is no memory to list them.
fn size_of_repo(repo: &Repo) -> usize {
    let Ok((names, _packs)) = repo.list() else {
        return usize::MAX;
    };
    let mut size: usize = 0;
    for name in &names {
        if let Some(bytes) = repo.get(*name) {
            size = size.saturating_add(bytes.as_slice().len());
        }
    }
    size
}

fn size_of_files(files: &[StoredFile]) -> usize {
    let mut size: usize = 0;
    for file in files {
        size = size.saturating_add(file.bytes().as_slice().len());
    }
    size
}
