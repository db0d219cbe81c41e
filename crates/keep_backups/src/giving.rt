ghost use Rattle.std.specs.Prelude.{◌≡◌, OnOk};

use crate::begun::Begun;
use crate::intake::{Intake, name_of, others_of};
use crate::keeps::Keeps;
use crate::type_name::type_name_of;
use keep_catalog::Hashing;
use keep_names::Id;
use keep_sources::{Receives, Stat, Stop};

impl<B: Begun, K: Keeps, H: Hashing + Copy> Receives for Intake<'_, '_, B, K, H> {
    ghost use Rattle.keep_archive.specs.Archive.{archive_view};
    ghost use Rattle.keep_backups.specs.Holding.{held_of};
    ghost use Rattle.keep_backups.specs.Taken.{Gives, TakenData, taken_of};

    ghost Seen = { TakenData };

    ghost seen = { λ intake. taken_of (archive_view intake.archive) };

    ghost gives = { Gives };

    ghost holds = { λ intake. held_of (archive_view intake.archive) };

    fn open_folder(&mut self, name: &str) -> Result<(), Stop> {
        let name = name_of(self.alloc, name)?;
        let done = self.archive.open_folder(name);
        self.heed(done)
    }

    fn close_folder(&mut self, sight: &Stat) -> Result<(), Stop> {
        let others = others_of(self.alloc, sight)?;
        let done = self.archive.close_folder(others);
        self.heed(done)
    }

    fn write(&mut self, bytes: &[u8]) -> Result<(), Stop> {
        let mut hashing = self.lent.hashing;
        let done = self.archive.write(bytes, &mut hashing);
        self.heed(done)
    }

    fn end_file(&mut self, name: &str, sight: &Stat) -> Result<(), Stop> {
        let name = name_of(self.alloc, name)?;
        let others = others_of(self.alloc, sight)?;
        let mut hashing = self.lent.hashing;
        let done = self.archive.end_file(name, others, &mut hashing);
        self.heed(done)
    }

    fn drop_file(&mut self) -> Result<(), Stop> {
        let done = self.archive.drop_file();
        self.heed(done)
    }

    fn same_file(&mut self, name: &str, content: &[Id], sight: &Stat) -> Result<(), Stop> {
        let name = name_of(self.alloc, name)?;
        let others = others_of(self.alloc, sight)?;
        let done = self.archive.same_file(name, content, others);
        self.heed(done)
    }

    fn add_other(&mut self, name: &str, sight: &Stat) -> Result<(), Stop> {
        let name = name_of(self.alloc, name)?;
        let type_name = String::from_str(self.alloc, type_name_of(&sight.kind))?;
        let others = others_of(self.alloc, sight)?;
        let done = self.archive.add_other(name, type_name, others);
        self.heed(done)
    }

    fn held(&self) -> u64 {
        self.archive.held()
    }

    fn store_part(&mut self) -> Result<(), Stop> {
        let is_change = self.lent.store(self.alloc, &self.archive)?;
        self.parts = self.parts.saturating_add(is_change as u64);
        match self.archive.let_go() {
            Ok(()) => Ok(()),
            Err(error) => Err(self.lent.unplanned(error)),
        }
    }
}
