ghost use Rattle.std.specs.Prelude.{◌≡◌, ◌↔◌, IsTrue, IfOk, OnOk, OnErr, option_copied};
ghost use Rattle.std.specs.Prelude as list;
ghost use Rattle.std.specs.FinMap as map;
ghost use Rattle.keep_names.specs.FileName as name;
ghost use Rattle.keep_repo.specs.Files.{by_id};
ghost use Rattle.keep_repo.specs.Kinds.{ids_among};

use crate::bytes::Bytes;
use indexmap::IndexMap;
use keep_names::{FileName, Id, Kind};
use std::alloc::{AllocError, Global};
use std::marker::Model;

/// Files' bytes by name. A file is found by its id's hash, in about the same time however many there are. Those of each
/// kind stand apart, so that the ids of one are found without the others; they are sorted when they are asked for.
pub(crate) struct Files {
    alloc: Global,
    packs: IndexMap<Id, Bytes>,
    indexes: IndexMap<Id, Bytes>,
    snapshots: IndexMap<Id, Bytes>,
}

impl Model for Files {
    ghost use Rattle.std.specs.Prelude.{ℕ, List};
    ghost use Rattle.std.specs.FinMap as map;
    ghost use Rattle.std.specs.Coded.{coded_ℕ, coded_list};
    ghost use Rattle.keep_names.specs.Orders.{coded_name, name_cmp};
    ghost use Rattle.keep_repo.specs.Files.{AreCounted, by_name};

    ghost Value = { map.FinMap name_cmp (List ℕ) };

    ghost coded = { map.code coded_name (coded_list coded_ℕ) };

    ghost view = { λ f. by_name f.packs.entries f.indexes.entries f.snapshots.entries };

    ghost invariant = { λ f. AreCounted (by_name f.packs.entries f.indexes.entries f.snapshots.entries) };
}

// One call drops it, where each `?` would else drop each part of it, which is long to prove.
impl Drop for Files {
    fn drop(self) {
        let Files {
            alloc: _,
            packs: _,
            indexes: _,
            snapshots: _,
        } = self;
    }
}

impl Files {
    pub(crate) fn new(alloc: Global) -> Files
        ensures { result ≡ map.empty }
    {
        Files {
            alloc,
            packs: IndexMap::new(alloc),
            indexes: IndexMap::new(alloc),
            snapshots: IndexMap::new(alloc),
        }
    }

    pub(crate) fn get(&self, name: FileName) -> Option<&Bytes>
        ensures { option_copied result ≡ map.get self.now name }
    {
        match name.kind {
            Kind::Pack => self.packs.get(&name.id),
            Kind::Index => self.indexes.get(&name.id),
            Kind::Snapshot => self.snapshots.get(&name.id),
        }
    }

    pub(crate) fn len(&self) -> usize
        ensures { result ≡ map.len self.now }
    {
        self.packs.len() + self.indexes.len() + self.snapshots.len()
    }

    /// Puts the bytes there, in the place of those that are.
    pub(crate) fn insert(&mut self, name: FileName, bytes: Bytes) -> Result<(), AllocError>
        ensures ok { OnOk result (self.new ≡ map.insert self.old name bytes) }
        ensures err { OnErr result (self.new ≡ self.old) }
    {
        if self.len() == usize::MAX {
            return Err(AllocError);
        }
        match name.kind {
            Kind::Pack => put(&mut self.packs, name.id, bytes),
            Kind::Index => put(&mut self.indexes, name.id, bytes),
            Kind::Snapshot => put(&mut self.snapshots, name.id, bytes),
        }
    }

    pub(crate) fn remove(&mut self, name: FileName)
        ensures { self.new ≡ map.remove self.old name }
    {
        match name.kind {
            Kind::Pack => remove_id(&mut self.packs, name.id),
            Kind::Index => remove_id(&mut self.indexes, name.id),
            Kind::Snapshot => remove_id(&mut self.snapshots, name.id),
        }
    }

    /// The ids of the files of this kind, in order.
    pub(crate) fn ids(&self, kind: Kind) -> Result<Vec<Id>, AllocError>
        ensures { IfOk result (λ ids. ids.items ≡ ids_among kind (map.keys self.now)) }
    {
        match kind {
            Kind::Pack => sorted(self.alloc, &self.packs),
            Kind::Index => sorted(self.alloc, &self.indexes),
            Kind::Snapshot => sorted(self.alloc, &self.snapshots),
        }
    }

    /// The names of the files, in order.
    pub(crate) fn names(&self) -> Result<Vec<FileName>, AllocError>
        ensures { IfOk result (λ names. names.items ≡ map.keys self.now) }
    {
        let mut names = named(self.alloc, Kind::Pack, &self.packs)?;
        names.append(&mut named(self.alloc, Kind::Index, &self.indexes)?)?;
        names.append(&mut named(self.alloc, Kind::Snapshot, &self.snapshots)?)?;
        Ok(names)
    }

    /// A copy of the files, which shares their bytes.
    pub(crate) fn copy(&self) -> Result<Files, AllocError>
        ensures { IfOk result (λ made. made ≡ self.now) }
    {
        Ok(Files {
            alloc: self.alloc,
            packs: self.packs.clone()?,
            indexes: self.indexes.clone()?,
            snapshots: self.snapshots.clone()?,
        })
    }

    pub(crate) fn same_as(&self, other: &Files) -> bool
        ensures { IsTrue result ↔ (self.now ≡ other.now) }
    {
        self.packs == other.packs
            && self.indexes == other.indexes
            && self.snapshots == other.snapshots
    }
}

/// The ids under which there is something, in order.
fn sorted(alloc: Global, files: &IndexMap<Id, Bytes>) -> Result<Vec<Id>, AllocError>
    ensures { IfOk result (λ ids. ids.items ≡ map.keys (by_id files.now.entries)) }
{
    let mut ids: Vec<Id> = files.keys().copied().collect(alloc)?;
    ids.sort_unstable();
    Ok(ids)
}

/// The names of these files of the kind, in order.
fn named(
    alloc: Global,
    kind: Kind,
    files: &IndexMap<Id, Bytes>,
) -> Result<Vec<FileName>, AllocError>
    ensures { IfOk result (λ names. names.items ≡ list.map (name.named kind) (map.keys (by_id files.now.entries))) }
{
    let ids = sorted(alloc, files)?;
    ids.iter()
        .map(|id| FileName { kind, id: *id })
        .collect(alloc)
}

/// Puts the bytes under the id, in the place of those that are.
fn put(files: &mut IndexMap<Id, Bytes>, id: Id, bytes: Bytes) -> Result<(), AllocError>
    ensures ok { OnOk result (by_id files.new.entries ≡ map.insert (by_id files.old.entries) id bytes) }
    ensures err { OnErr result (files.new.entries ≡ files.old.entries) }
{
    files.insert(id, bytes)?;
    Ok(())
}

/// Takes away what is under the id. Where fewer than a quarter of the places are in use then, it gives back memory: at
/// least twice as many as are in use stay, so that taking one by one takes the same time for each on average.
fn remove_id(files: &mut IndexMap<Id, Bytes>, id: Id)
    ensures { by_id files.new.entries ≡ map.remove (by_id files.old.entries) id }
{
    files.swap_remove(&id);
    let used = files.len();
    if used < files.capacity() / 4 {
        files.shrink_to(2 * used);
    }
}
