ghost use Rattle.std.specs.Prelude.{◌≡◌, false, [], All, Contains, None, Some, if◌then◌else◌, slice_get};
ghost use Rattle.std.specs.Prelude.{IfNone, IfOk, IfSome, OnOk};
ghost use Rattle.std.specs.BTreeMap.{IsOrdered};
ghost use Rattle.std.specs.FinMap as finite;
ghost use Rattle.std.specs.Option.{option_map, option_or};
ghost use Rattle.std.specs.Ordering.{is_lt};
ghost use Rattle.keep_names.specs.FileName.{named};
ghost use Rattle.indexmap.specs.IndexMap.{get, keys};
ghost use Rattle.keep_names.specs.Orders.{id_cmp, name_cmp};
ghost use Rattle.keep_names.specs.declared.file_name.FileName as the_name;
ghost use Rattle.keep_names.specs.declared.file_name.Kind.TheVariants as the_kind;
ghost use Rattle.keep_repo.specs.Repository.{Repository, empty_repository};
ghost use Rattle.keep_names.specs.declared.id.Id as the_id;
ghost use Rattle.keep_snap.specs.Snap.{snap_view};
ghost use Rattle.keep_catalog.specs.Files.{unread_at, unread_in};
ghost use Rattle.keep_catalog.specs.Kept.{AreNew, AreThere, AreUnreadOf, IsKept, snap_at};
ghost use Rattle.keep_catalog.specs.Kept.{with_file, with_files, without_file, without_files};
ghost use Rattle.keep_catalog.specs.Orders.{same_id, same_name};

use crate::file_reading::{read_listed, read_pack, read_snapshot};
use crate::headers::add_found;
use crate::indexes::{Indexes, put_index, remove_index};
use crate::listed::Listed;
use crate::stored::{Stored, store, unstore};
use crate::unread::{FileError, Unread};
use indexmap::IndexMap;
use keep_change::StoredFile;
use keep_names::{FileName, Id, Kind};
use keep_repo::Repo;
use keep_snap::Snap;
use std::alloc::{AllocError, Global};
use std::collections::BTreeMap;

/// What the files of a repository say, by what it is asked for. It holds no repository, and follows any by the files
/// that come and go. After want of memory it may say anything, and is to be let go.
pub(crate) struct Tables {
    alloc: Global,
    pub(crate) stored: Stored,
    pub(crate) listed: Listed,
    pub(crate) indexes: Indexes,
    pub(crate) snaps: BTreeMap<Id, Snap>,
    /// Found by hash, since each file that goes is looked for here.
    pub(crate) unread: IndexMap<FileName, FileError>,
}

// One call drops it, where each `?` would else drop each part of it, which is long to prove.
impl Drop for Tables {
    fn drop(self) {
        let Tables {
            alloc: _,
            stored: _,
            listed: _,
            indexes: _,
            snaps: _,
            unread: _,
        } = self;
    }
}

impl Tables {
    /// The tables of a repository. Each of its packs, indexes and snapshots is read.
    pub(crate) fn of(alloc: Global, repo: &Repo) -> Result<Tables, AllocError>
        ensures { IfOk result (IsKept repo.now) }
    {
        let (names, _packs) = repo.list()?;
        let mut tables = Tables::new(alloc);
        for name in &names {
            if let Some(bytes) = repo.get(*name) {
                tables.add_file(*name, bytes.as_slice())?;
            }
        }
        Ok(tables)
    }

    fn new(alloc: Global) -> Tables
        ensures { IsKept empty_repository result }
    {
        Tables {
            alloc,
            stored: BTreeMap::new(alloc),
            listed: BTreeMap::new(alloc),
            indexes: BTreeMap::new(alloc),
            snaps: BTreeMap::new(alloc),
            unread: IndexMap::new(alloc),
        }
    }

    /// Follows files that come. No others are read.
    pub(crate) fn add_files(&mut self, files: &[StoredFile]) -> Result<(), AllocError>
        ensures { OnOk result ((r : Repository) → AreNew files.now r.files → IsKept r self.old
            → IsKept (with_files files.now r) self.new) }
    {
        for file in files {
            self.add_file(file.name(), file.bytes().as_slice())?;
        }
        Ok(())
    }

    /// Follows files that go. No others are read.
    pub(crate) fn drop_files(&mut self, files: &[StoredFile]) -> Result<(), AllocError>
        ensures { OnOk result ((r : Repository) → AreThere files.now r.files → IsKept r self.old
            → IsKept (without_files files.now r) self.new) }
    {
        for file in files {
            self.drop_file(file.name(), file.bytes().as_slice())?;
        }
        Ok(())
    }

    /// The first file that can't be read, by name.
    pub(crate) fn first_unread(&self) -> Option<Unread>
        ensures { (r : Repository) → IsKept r self.now → result ≡ slice_get (unread_in r) 0 }
    {
        first_of(&self.unread)
    }

    /// Follows a file that comes.
    fn add_file(&mut self, name: FileName, bytes: &[u8]) -> Result<(), AllocError>
        ensures { OnOk result ((r : Repository) → finite.get r.files name ≡ None → IsKept r self.old
            → IsKept (with_file r name bytes.now) self.new) }
    {
        match name.kind {
            Kind::Pack => self.add_pack(name.id, bytes),
            Kind::Index => self.add_index(name.id, bytes),
            Kind::Snapshot => self.add_snapshot(name.id, bytes),
        }
    }

    fn add_pack(&mut self, pack: Id, bytes: &[u8]) -> Result<(), AllocError>
        ensures { let name = named the_kind.Pack pack in
            OnOk result ((r : Repository) → finite.get r.files name ≡ None → IsKept r self.old
            → IsKept (with_file r name bytes.now) self.new) }
    {
        let (entries, why) = read_pack(self.alloc, bytes)?;
        store(&mut self.stored, pack, &entries)?;
        note(&mut self.unread, FileName::pack(pack), why)
    }

    fn add_index(&mut self, index: Id, bytes: &[u8]) -> Result<(), AllocError>
        ensures { let name = named the_kind.Index index in
            OnOk result ((r : Repository) → finite.get r.files name ≡ None → IsKept r self.old
            → IsKept (with_file r name bytes.now) self.new) }
    {
        let (packs, why) = read_listed(self.alloc, bytes)?;
        put_index(
            self.alloc,
            &mut self.listed,
            &mut self.indexes,
            index,
            packs,
        )?;
        note(&mut self.unread, FileName::index(index), why)
    }

    fn add_snapshot(&mut self, name: Id, bytes: &[u8]) -> Result<(), AllocError>
        ensures { let name = named the_kind.Snapshot name in
            OnOk result ((r : Repository) → finite.get r.files name ≡ None → IsKept r self.old
            → IsKept (with_file r name bytes.now) self.new) }
    {
        let (snap, why) = read_snapshot(self.alloc, bytes)?;
        keep(&mut self.snaps, name, snap)?;
        note(&mut self.unread, FileName::snapshot(name), why)
    }

    /// Follows a file that goes.
    fn drop_file(&mut self, name: FileName, bytes: &[u8]) -> Result<(), AllocError>
        ensures { OnOk result ((r : Repository) → finite.get r.files name ≡ Some bytes.now → IsKept r self.old
            → IsKept (without_file r name) self.new) }
    {
        match name.kind {
            Kind::Pack => self.drop_pack(name.id, bytes),
            Kind::Index => self.drop_index(name.id),
            Kind::Snapshot => {
                self.drop_snapshot(name.id);
                Ok(())
            }
        }
    }

    fn drop_pack(&mut self, pack: Id, bytes: &[u8]) -> Result<(), AllocError>
        ensures { let name = named the_kind.Pack pack in
            OnOk result ((r : Repository) → finite.get r.files name ≡ Some bytes.now → IsKept r self.old
            → IsKept (without_file r name) self.new) }
    {
        if forget(&mut self.unread, FileName::pack(pack)).is_some() {
            return Ok(());
        }
        let (entries, _why) = read_pack(self.alloc, bytes)?;
        unstore(&mut self.stored, pack, &entries);
        Ok(())
    }

    fn drop_index(&mut self, index: Id) -> Result<(), AllocError>
        ensures { let name = named the_kind.Index index in
            OnOk result ((r : Repository) → IsKept r self.old → IsKept (without_file r name) self.new) }
    {
        forget(&mut self.unread, FileName::index(index));
        remove_index(&mut self.listed, &mut self.indexes, index)?;
        Ok(())
    }

    fn drop_snapshot(&mut self, name: Id)
        ensures { let name = named the_kind.Snapshot name in
            (r : Repository) → IsKept r self.old → IsKept (without_file r name) self.new }
    {
        self.snaps.remove(&name);
        forget(&mut self.unread, FileName::snapshot(name));
    }
}

/// Keeps a snapshot, if there is one.
fn keep(snaps: &mut BTreeMap<Id, Snap>, name: Id, snap: Option<Snap>) -> Result<(), AllocError>
    ensures kept { OnOk result ((q : the_id.Id) → snap_at snaps.new q
        ≡ option_or (if same_id name q then option_map snap_view snap else None) (snap_at snaps.old q)) }
    ensures ordered { OnOk result (IsOrdered id_cmp snaps.old → IsOrdered id_cmp snaps.new) }
{
    if let Some(snap) = snap {
        snaps.insert(name, snap)?;
    }
    Ok(())
}

/// Notes why a file can't be read, if it can't.
fn note(
    unread: &mut IndexMap<FileName, FileError>,
    name: FileName,
    why: Option<FileError>,
) -> Result<(), AllocError>
    ensures { OnOk result ((q : the_name.FileName) → get same_name unread.new q
        ≡ option_or (if same_name name q then why else None) (get same_name unread.old q)) }
{
    if let Some(why) = why {
        unread.insert(name, why)?;
    }
    Ok(())
}

/// Forgets why a file can't be read, and answers it. Where fewer than a quarter of the places are in use then, it gives
/// back memory. At least twice as many as are in use stay.
fn forget(unread: &mut IndexMap<FileName, FileError>, name: FileName) -> Option<FileError>
    ensures was { result ≡ get same_name unread.old name }
    ensures forgotten { (q : the_name.FileName) → get same_name unread.new q
        ≡ if same_name name q then None else get same_name unread.old q }
{
    let was = unread.swap_remove(&name);
    let used = unread.len();
    if used < unread.capacity() / 4 {
        unread.shrink_to(2 * used);
    }
    was
}

/// The file of this name, if it can't be read.
fn unread_file(unread: &IndexMap<FileName, FileError>, name: FileName) -> Option<Unread>
    ensures { (r : Repository) → AreUnreadOf r unread.now → result ≡ unread_at r name }
{
    let refusal = *unread.get(&name)?;
    Some(Unread { name, refusal })
}

/// The least of the names.
fn least_name(unread: &IndexMap<FileName, FileError>) -> Option<FileName>
    ensures among { IfSome result (Contains (keys unread.now)) }
    ensures least { IfSome result (λ name. All (λ q. is_lt (name_cmp q name) ≡ false) (keys unread.now)) }
    ensures none { IfNone result (keys unread.now ≡ []) }
{
    unread.keys().copied().min()
}

/// The first of the files that can't be read, by name.
fn first_of(unread: &IndexMap<FileName, FileError>) -> Option<Unread>
    ensures { (r : Repository) → AreUnreadOf r unread.now → result ≡ slice_get (unread_in r) 0 }
{
    let name = least_name(unread)?;
    unread_file(unread, name)
}

/// The files that can't be read, by name.
pub(crate) fn unread_files(
    alloc: Global,
    unread: &IndexMap<FileName, FileError>,
) -> Result<Vec<Unread>, AllocError>
    ensures { IfOk result (λ files. (r : Repository) → AreUnreadOf r unread.now → files.items ≡ unread_in r) }
{
    let mut names: Vec<FileName> = unread.keys().copied().collect(alloc)?;
    names.sort_unstable();
    let mut files = Vec::new(alloc);
    for name in &names {
        add_found(&mut files, unread_file(unread, *name))?;
    }
    Ok(files)
}
