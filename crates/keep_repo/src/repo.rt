ghost use Rattle.std.specs.Prelude.{◌≡◌, ◌↔◌, IsTrue, IfOk, OnOk, OnErr, is_some, option_copied, length};
ghost use Rattle.std.specs.FinMap as map;
ghost use Rattle.std.specs.Option.{option_map};
ghost use Rattle.keep_repo.specs.Kinds.{ids_among};
ghost use Rattle.keep_repo.specs.Repository.{held, is_filled, empty_repository};

use crate::bytes::Bytes;
use crate::facet::{Facet, Mark};
use crate::files::Files;
use keep_names::{FileName, Id, Kind};
use std::alloc::{AllocError, Global};
use std::collections::BTreeMap;
use std::marker::Model;

/// A repository: bytes by file name, and a mark by pack.
#[derive(Drop)]
pub struct Repo {
    alloc: Global,
    files: Files,
    marks: BTreeMap<Id, Mark>,
}

impl Model for Repo {
    ghost use Rattle.std.specs.FinMap as map;
    ghost use Rattle.keep_repo.specs.Repository.{Repository, coded_repository};

    ghost Value = { Repository };

    ghost coded = { coded_repository };

    ghost view = { λ r. record {
      files = r.files;
      marks = map.from_entries r.marks.entries;
    } };
}

impl Repo {
    /// The repository without files and marks.
    pub fn new(alloc: Global) -> Repo
        ensures { result ≡ empty_repository }
    {
        Repo {
            alloc,
            files: Files::new(alloc),
            marks: BTreeMap::new(alloc),
        }
    }

    /// The bytes of the file, if it is there.
    pub fn get(&self, name: FileName) -> Option<&Bytes>
        ensures { option_copied result ≡ map.get self.now.files name }
    {
        self.files.get(name)
    }

    /// The moment of the pack's mark, if it has one.
    pub fn mark_of(&self, pack: Id) -> Option<i64>
        ensures { result ≡ option_map (λ m. m.moment) (map.get self.now.marks pack) }
    {
        self.marks.get(&pack).map(|mark| mark.moment)
    }

    pub fn is_marked(&self, pack: Id) -> bool
        ensures { result ≡ is_some (map.get self.now.marks pack) }
    {
        self.marks.contains_key(&pack)
    }

    /// Whether there is such a file, or such a mark.
    pub fn facet_filled(&self, facet: Facet) -> bool
        ensures { result ≡ is_filled self.now facet }
    {
        match facet {
            Facet::File(name) => self.files.get(name).is_some(),
            Facet::Mark(pack) => self.is_marked(pack),
        }
    }

    pub fn file_count(&self) -> usize
        ensures { result ≡ map.len self.now.files }
    {
        self.files.len()
    }

    pub fn mark_count(&self) -> usize
        ensures { result ≡ map.len self.now.marks }
    {
        self.marks.len()
    }

    /// The names of the files and the marked packs, each in order. It takes n log n steps for n files.
    pub fn list(&self) -> Result<(Vec<FileName>, Vec<Id>), AllocError>
        ensures files { IfOk result (λ listed. listed.0.items ≡ map.keys self.now.files) }
        ensures marks { IfOk result (λ listed. listed.1.items ≡ map.keys self.now.marks) }
    {
        let names = self.files.names()?;
        let packs = self.marks.keys().copied().collect(self.alloc)?;
        Ok((names, packs))
    }

    /// The marked packs with their marks, by pack.
    pub fn marks(&self) -> Result<Vec<(Id, Mark)>, AllocError>
        ensures { IfOk result (λ listed. listed.items ≡ map.entries self.now.marks) }
    {
        self.marks
            .iter()
            .map(|(pack, mark)| (*pack, *mark))
            .collect(self.alloc)
    }

    /// The ids of the files of this kind, in order. It takes n log n steps for n of them, and goes over no others.
    pub fn ids(&self, kind: Kind) -> Result<Vec<Id>, AllocError>
        ensures { IfOk result (λ ids. ids.items ≡ ids_among kind (map.keys self.now.files)) }
    {
        self.files.ids(kind)
    }

    /// A repository of its own with the same files and marks. The bytes are shared.
    pub fn copy(&self) -> Result<Repo, AllocError>
        ensures { IfOk result (λ made. made ≡ self.now) }
    {
        Ok(Repo {
            alloc: self.alloc,
            files: self.files.copy()?,
            marks: self.marks.clone()?,
        })
    }

    /// A repository of its own with the same marks, and without files.
    pub fn copy_marks(&self) -> Result<Repo, AllocError>
        ensures { IfOk result (λ made. made ≡ record { files = map.empty; marks = self.now.marks }) }
    {
        let marks = self.marks.clone()?;
        Ok(Repo {
            alloc: self.alloc,
            files: Files::new(self.alloc),
            marks,
        })
    }

    /// Whether the other has the same files, byte for byte, and the same marks, with the same moments.
    pub fn same_as(&self, other: &Repo) -> bool
        ensures { IsTrue result ↔ (self.now ≡ other.now) }
    {
        self.files.same_as(&other.files) && self.same_marks(other)
    }

    fn same_marks(&self, other: &Repo) -> bool
        ensures { IsTrue result ↔ (self.now.marks ≡ other.now.marks) }
    {
        let (marks, others) = (&self.marks, &other.marks);
        marks.len() == others.len() && marks == others
    }

    /// Puts the file there, in the place of one that has the name.
    pub fn insert_file(&mut self, name: FileName, bytes: Bytes) -> Result<(), AllocError>
        ensures ok { let files = map.insert self.old.files name bytes in
            OnOk result (self.new ≡ record self.old { files = files }) }
        ensures err { OnErr result (self.new ≡ self.old) }
    {
        self.files.insert(name, bytes)
    }

    pub fn remove_file(&mut self, name: FileName)
        ensures { self.new ≡ record self.old { files = map.remove self.old.files name } }
    {
        self.files.remove(name);
    }

    /// Puts the mark on the pack, in the place of one that it has.
    pub fn insert_mark(&mut self, pack: Id, mark: Mark) -> Result<(), AllocError>
        ensures ok { let marks = map.insert self.old.marks pack mark in
            OnOk result (self.new ≡ record self.old { marks = marks }) }
        ensures err { OnErr result (self.new ≡ self.old) }
    {
        self.marks.insert(pack, mark)?;
        Ok(())
    }

    pub fn remove_mark(&mut self, pack: Id)
        ensures { self.new ≡ record self.old { marks = map.remove self.old.marks pack } }
    {
        self.marks.remove(&pack);
    }
}
