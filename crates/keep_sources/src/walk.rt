ghost use Rattle.std.specs.Prelude.{◌≡◌, [], ◌∷◌, true, OnOk, map, string_bytes};
ghost use Rattle.keep_sources.specs.Job as asking;
ghost use Rattle.keep_sources.specs.Met.{below};
ghost use Rattle.keep_sources.specs.Took.{Took, TookListed};
ghost use Rattle.keep_sources.specs.declared.stat.StatKind.TheVariants as the_kind;

use crate::asked_paths::is_asked;
use crate::receives::{Receives, Stop};
use crate::scope::Scope;
use crate::skipped::Why;
use crate::source::{FolderListing, Source};
use crate::stat::{Stat, StatKind};
use crate::taken_paths::path_of;
use crate::taking::Taking;

impl<S: Source, A: Receives> Taking<S, A> {
    /// Takes what lies in a folder, and names how many names can't be said.
    #[cycle(walking)]
    pub(crate) fn walk_listed(
        &mut self,
        job: &Scope,
        folder: &str,
        listing: &FolderListing,
        levels: u16,
    ) -> Result<(), Stop>
        ensures { OnOk result (TookListed S.told A.gives job.now levels folder.now listing.now
            (A.seen self.old.archive) (A.seen self.new.archive) self.old.skipped.items self.new.skipped.items) }
    {
        self.name_unsaid(folder, listing.unsayable)?;
        self.walk_names(job, folder, listing.names.as_slice(), levels)
    }

    /// Takes what these names of a folder lead to.
    #[cycle(walking)]
    fn walk_names(
        &mut self,
        job: &Scope,
        folder: &str,
        names: &[String],
        levels: u16,
    ) -> Result<(), Stop>
        ensures { OnOk result (Took S.told A.gives job.now levels folder.now (map string_bytes names.now)
            (A.seen self.old.archive) (A.seen self.new.archive) self.old.skipped.items self.new.skipped.items) }
    {
        for name in names {
            self.walk_name(job, folder, name.as_str(), levels)?;
        }
        Ok(())
    }

    /// Takes what a name of a folder leads to.
    #[cycle(walking)]
    fn walk_name(&mut self, job: &Scope, folder: &str, name: &str, levels: u16) -> Result<(), Stop>
        ensures { OnOk result (Took S.told A.gives job.now levels folder.now (name.now ∷ [])
            (A.seen self.old.archive) (A.seen self.new.archive) self.old.skipped.items self.new.skipped.items) }
    {
        let path = path_of(self.alloc, folder, name)?;
        if !is_asked(self.alloc, job, path.as_str())? {
            return Ok(());
        }
        let sight = match self.source.look(path.as_str()) {
            Ok(sight) => sight,
            Err(why) => return self.skip(path, why),
        };
        match sight.kind {
            StatKind::File => self.give_file(job, path, name, sight, levels),
            StatKind::Folder => self.walk_folder(job, folder, path, name, &sight, levels),
            StatKind::Link(_)
            | StatKind::Fifo
            | StatKind::Socket
            | StatKind::Device
            | StatKind::CharDevice => { self.archive.add_other(name, &sight) }
        }
    }

    /// Takes a folder that was seen, with all below it.
    #[cycle(walking)]
    fn walk_folder(
        &mut self,
        job: &Scope,
        folder: &str,
        path: String,
        name: &str,
        sight: &Stat,
        levels: u16,
    ) -> Result<(), Stop>
        requires path { string_bytes path ≡ below folder.now name.now }
        requires asked { asking.is_asked job.now (string_bytes path) ≡ true }
        requires seen { S.told.saw (string_bytes path) sight.now }
        requires folder { sight.now.kind ≡ the_kind.Folder }
        ensures { OnOk result (Took S.told A.gives job.now levels folder.now (name.now ∷ [])
            (A.seen self.old.archive) (A.seen self.new.archive) self.old.skipped.items self.new.skipped.items) }
    {
        if levels == 0 {
            return self.skip(path, Why::TooDeep);
        }
        let listing = match self.source.list(path.as_str(), sight) {
            Ok(listing) => listing,
            Err(why) => return self.skip(path, why),
        };
        self.archive.open_folder(name)?;
        self.walk_listed(job, path.as_str(), &listing, levels - 1)?;
        self.make_room()?;
        self.archive.close_folder(sight)
    }
}
