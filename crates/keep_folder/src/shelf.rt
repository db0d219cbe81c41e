ghost use Rattle.std.specs.Prelude.{◌≡◌, ◌↔◌, IfErr, IfOk, IsTrue, OnErr, OnOk, is_some, string_bytes, true};
ghost use Rattle.std.specs.FinMap as map;
ghost use Rattle.keep_files.specs.Content.{HoldsFiles};
ghost use Rattle.keep_files.specs.Stands.{IsClosed};
ghost use Rattle.keep_keyed_folder.specs.Tmp.{IsTmp};
ghost use Rattle.keep_files.specs.declared.tree_error.TreeError.TheVariants.{Broken};
ghost use Rattle.keep_shelf.specs.Shelved.{called, failed, shifted, stocked};

use crate::not_opened::NotOpened;
use keep_files::{FileTree, TreeError};
use keep_keyed_folder::{KeyPath, KeyedFolder, read_keys};
use keep_log::Log;
use keep_paths::key_is_sized;
use keep_rope::Rope;
use keep_shelf::{Fault, Key, Shelf, Stock};
use std::alloc::Global;
use std::marker::Model;

/// A shelf in a folder. What stands on it is in memory too, from where it is read, and nothing else: the bytes of each
/// file that is there now, and its key. What was replaced or erased is let go.
///
/// What stands on it is what its folder holds, as long as that can be told. Where it isn't known of a call whether it was
/// done, each later one fails before it does anything.
#[derive(Drop)]
pub struct FolderShelf<T: FileTree> {
    alloc: Global,
    folder: KeyedFolder<T>,
    content: Stock,
    failures: u64,
    /// What stood there when it was opened, as the one item.
    made: Log<Stock>,
    /// What each call that didn't fail left.
    calls: Log<Stock>,
    is_sure: bool,
}

impl<T: FileTree> Model for FolderShelf<T> {
    ghost use Rattle.std.specs.Prelude.{IsTrue, get_or};
    ghost use Rattle.std.specs.FinMap as map;
    ghost use Rattle.keep_files.specs.Content.{HoldsFiles};
    ghost use Rattle.keep_files.specs.Stands.{IsClosed};
    ghost use Rattle.keep_keyed_folder.specs.Keyed.{stands_in};
    ghost use Rattle.keep_folder.specs.FolderShelfData.{FolderShelfData, coded_folder_shelf};

    ghost Value = { FolderShelfData };

    ghost coded = { coded_folder_shelf };

    ghost view = { λ s. record {
      shelved = record {
        made = get_or s.made.items 0 map.empty;
        content = s.content;
        failures = s.failures;
        calls = s.calls.items;
      };
      is_sure = s.is_sure;
    } };

    ghost invariant = { λ s. IsClosed (stands_in T.seen s.folder)
        × (IsTrue s.is_sure → HoldsFiles (stands_in T.seen s.folder) s.content) };
}

impl<T: FileTree> FolderShelf<T> {
    /// Reads all that lies under keys in the tree. Files that are under way get this name.
    pub fn open(alloc: Global, tree: T, tmp: String) -> Result<FolderShelf<T>, NotOpened<T>>
        requires closed { IsClosed (T.seen tree).stands }
        requires tmp { IsTmp (string_bytes tmp) }
        ensures opened { IfOk result (λ shelf. shelf.shelved ≡ stocked shelf.shelved.content) }
        ensures told { IfOk result (λ shelf. IsTrue shelf.is_sure) }
        ensures read { IfOk result (λ shelf. HoldsFiles (T.seen tree).stands shelf.shelved.content) }
        ensures given { IfErr result (λ given. (T.seen given.tree).stands ≡ (T.seen tree).stands) }
    {
        let mut tree = tree;
        match read_keys(alloc, &mut tree) {
            Ok(content) => {
                let made = Log::new().and(&content);
                Ok(FolderShelf {
                    alloc,
                    folder: KeyedFolder::new(tree, tmp),
                    content,
                    failures: 0,
                    made,
                    calls: Log::new(),
                    is_sure: true,
                })
            }
            Err(error) => Err(NotOpened { tree, error }),
        }
    }

    fn try_read(&mut self, key: Key) -> Result<Option<Rope>, Fault>
        ensures found { IfOk result (λ found. found ≡ map.get self.old.shelved.content key) }
        ensures ok { OnOk result (self.new.shelved ≡ called self.old.shelved self.old.shelved.content) }
        ensures err { OnErr result (self.new.shelved ≡ self.old.shelved) }
        ensures told { OnOk result (IsTrue self.old.is_sure) }
        ensures same { self.new.is_sure ≡ self.old.is_sure }
    {
        self.require_sure()?;
        let found = self.content.shared(key)?;
        self.note();
        Ok(found)
    }

    fn try_list(&mut self) -> Result<Vec<Key>, Fault>
        ensures listed { IfOk result (λ keys. keys.items ≡ map.keys self.old.shelved.content) }
        ensures ok { OnOk result (self.new.shelved ≡ called self.old.shelved self.old.shelved.content) }
        ensures err { OnErr result (self.new.shelved ≡ self.old.shelved) }
        ensures told { OnOk result (IsTrue self.old.is_sure) }
        ensures same { self.new.is_sure ≡ self.old.is_sure }
    {
        self.require_sure()?;
        let keys = self.content.keys()?;
        self.note();
        Ok(keys)
    }

    fn try_write(&mut self, key: Key, bytes: &Rope) -> Result<(), Fault>
        ensures ok { OnOk result (self.new.shelved
            ≡ called self.old.shelved (map.insert self.old.shelved.content key bytes.now)) }
        ensures err { OnErr result (self.new.shelved ≡ self.old.shelved) }
        ensures told { OnOk result (IsTrue self.old.is_sure) }
        ensures still { OnOk result (IsTrue self.new.is_sure) }
    {
        self.require_sure()?;
        let path = KeyPath::new(self.alloc, key)?;
        let was = self.content.write(key, bytes.clone()?)?;
        if let Err(error) = self.folder.put(&path, bytes) {
            self.content.put_back(key, was);
            self.is_sure = is_sure_after(error);
            return Err(Fault);
        }
        self.note();
        Ok(())
    }

    fn try_shift(&mut self, from: Key, to: Key) -> Result<(), Fault>
        requires filled { IsTrue (is_some (map.get self.old.shelved.content from)) }
        requires free { map.get self.old.shelved.content to ≡ None }
        ensures ok { OnOk result (self.new.shelved
            ≡ called self.old.shelved (shifted self.old.shelved.content from to)) }
        ensures err { OnErr result (self.new.shelved ≡ self.old.shelved) }
        ensures told { OnOk result (IsTrue self.old.is_sure) }
        ensures still { OnOk result (IsTrue self.new.is_sure) }
    {
        self.require_sure()?;
        key_is_sized(from);
        let source = KeyPath::new(self.alloc, from)?;
        let target = KeyPath::new(self.alloc, to)?;
        let Some(bytes) = self.content.shared(from)? else {
            unreachable!()
        };
        self.content.write(to, bytes)?;
        if let Err(error) = self.folder.shift(&source, &target) {
            self.content.put_back(to, None);
            self.is_sure = is_sure_after(error);
            return Err(Fault);
        }
        self.content.erase(from);
        self.note();
        Ok(())
    }

    fn try_erase(&mut self, key: Key) -> Result<(), Fault>
        ensures ok { OnOk result (self.new.shelved
            ≡ called self.old.shelved (map.remove self.old.shelved.content key)) }
        ensures err { OnErr result (self.new.shelved ≡ self.old.shelved) }
        ensures told { OnOk result (IsTrue self.old.is_sure) }
        ensures still { OnOk result (IsTrue self.new.is_sure) }
    {
        self.require_sure()?;
        let path = KeyPath::new(self.alloc, key)?;
        if self.content.get(key).is_none() {
            self.note();
            return Ok(());
        }
        if let Err(error) = self.folder.remove(&path) {
            self.is_sure = is_sure_after(error);
            return Err(Fault);
        }
        self.content.erase(key);
        self.note();
        Ok(())
    }

    /// Refuses a shelf that can't be told.
    fn require_sure(&self) -> Result<(), Fault>
        ensures { OnOk result (IsTrue self.now.is_sure) }
    {
        if self.is_sure { Ok(()) } else { Err(Fault) }
    }

    /// Notes that a call was done, and left what stands there now.
    fn note(&mut self)
        ensures called { self.new.shelved ≡ called self.old.shelved self.old.shelved.content }
        ensures same { self.new.is_sure ≡ self.old.is_sure }
    {
        self.calls = self.calls.and(&self.content);
    }

    /// Counts a call that failed.
    fn fail(&mut self) -> Fault
        ensures failed { self.new.shelved ≡ failed self.old.shelved }
        ensures same { self.new.is_sure ≡ self.old.is_sure }
    {
        self.failures = self.failures.saturating_add(1);
        Fault
    }
}

impl<T: FileTree> Shelf for FolderShelf<T> {
    ghost shelved = { λ s. s.shelved };

    fn read(&mut self, key: Key) -> Result<Option<Rope>, Fault>
        ensures found { IfOk result (λ found. found ≡ map.get self.old.shelved.content key) }
        ensures ok { OnOk result (self.new.shelved ≡ called self.old.shelved self.old.shelved.content) }
        ensures err { OnErr result (self.new.shelved ≡ failed self.old.shelved) }
        ensures told { OnOk result (IsTrue self.old.is_sure) }
    {
        match self.try_read(key) {
            Ok(found) => Ok(found),
            Err(Fault) => Err(self.fail()),
        }
    }

    fn write(&mut self, key: Key, bytes: &Rope) -> Result<(), Fault>
        ensures ok { OnOk result (self.new.shelved
            ≡ called self.old.shelved (map.insert self.old.shelved.content key bytes.now)) }
        ensures err { OnErr result (self.new.shelved ≡ failed self.old.shelved) }
        ensures told { OnOk result (IsTrue self.old.is_sure) }
        ensures still { OnOk result (IsTrue self.new.is_sure) }
    {
        match self.try_write(key, bytes) {
            Ok(()) => Ok(()),
            Err(Fault) => Err(self.fail()),
        }
    }

    fn shift(&mut self, from: Key, to: Key) -> Result<(), Fault>
        requires filled { IsTrue (is_some (map.get self.old.shelved.content from)) }
        requires free { map.get self.old.shelved.content to ≡ None }
        ensures ok { OnOk result (self.new.shelved
            ≡ called self.old.shelved (shifted self.old.shelved.content from to)) }
        ensures err { OnErr result (self.new.shelved ≡ failed self.old.shelved) }
        ensures told { OnOk result (IsTrue self.old.is_sure) }
        ensures still { OnOk result (IsTrue self.new.is_sure) }
    {
        match self.try_shift(from, to) {
            Ok(()) => Ok(()),
            Err(Fault) => Err(self.fail()),
        }
    }

    fn erase(&mut self, key: Key) -> Result<(), Fault>
        ensures ok { OnOk result (self.new.shelved
            ≡ called self.old.shelved (map.remove self.old.shelved.content key)) }
        ensures err { OnErr result (self.new.shelved ≡ failed self.old.shelved) }
        ensures told { OnOk result (IsTrue self.old.is_sure) }
        ensures still { OnOk result (IsTrue self.new.is_sure) }
    {
        match self.try_erase(key) {
            Ok(()) => Ok(()),
            Err(Fault) => Err(self.fail()),
        }
    }

    fn list(&mut self) -> Result<Vec<Key>, Fault>
        ensures listed { IfOk result (λ keys. keys.items ≡ map.keys self.old.shelved.content) }
        ensures ok { OnOk result (self.new.shelved ≡ called self.old.shelved self.old.shelved.content) }
        ensures err { OnErr result (self.new.shelved ≡ failed self.old.shelved) }
        ensures told { OnOk result (IsTrue self.old.is_sure) }
    {
        match self.try_list() {
            Ok(keys) => Ok(keys),
            Err(Fault) => Err(self.fail()),
        }
    }

    fn is_sure(&self) -> bool
        ensures told { result ≡ self.now.is_sure }
    {
        self.is_sure
    }
}

/// Whether it is known what became of an act that ended so.
fn is_sure_after(error: TreeError) -> bool
    ensures { IsTrue result ↔ (error ≡ Broken) }
{
    matches!(error, TreeError::Broken)
}
