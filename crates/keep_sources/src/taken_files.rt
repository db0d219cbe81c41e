ghost use Rattle.std.specs.Prelude.{◌≡◌, List, true, MatchOption, OnOk, string_bytes};
ghost use Rattle.keep_names.specs.declared.id.Id.{Id as the_id};
ghost use Rattle.keep_sources.specs.Job as asking;
ghost use Rattle.keep_sources.specs.Job.{IsUnchanged};
ghost use Rattle.keep_sources.specs.Met as spec;
ghost use Rattle.keep_sources.specs.Took.{IsNewFile, TookLeaf};
ghost use Rattle.keep_sources.specs.declared.stat.StatKind.TheVariants as the_kind;

use crate::receives::{Receives, Stop};
use crate::scope::Scope;
use crate::skipped::Why;
use crate::source::Source;
use crate::stat::Stat;
use crate::taking::Taking;
use keep_names::Id;

impl<S: Source, A: Receives> Taking<S, A> {
    /// Takes a file that was seen: what an earlier backup has of it, or what it holds.
    pub(crate) fn give_file(
        &mut self,
        job: &Scope,
        path: String,
        name: &str,
        sight: Stat,
        levels: u16,
    ) -> Result<(), Stop>
        requires asked { asking.is_asked job.now (string_bytes path) ≡ true }
        requires seen { S.told.saw (string_bytes path) sight }
        requires file { sight.kind ≡ the_kind.File }
        ensures { OnOk result (TookLeaf S.told A.gives job.now levels (string_bytes path) name.now
            (A.seen self.old.archive) (A.seen self.new.archive) self.old.skipped.items self.new.skipped.items) }
    {
        match unchanged(job, path.as_str(), &sight) {
            Some(content) => self.archive.same_file(name, content, &sight),
            None => self.read_file(job, path, name, sight, levels),
        }
    }

    /// Reads a file that was seen, and gives what it holds.
    fn read_file(
        &mut self,
        job: &Scope,
        path: String,
        name: &str,
        sight: Stat,
        levels: u16,
    ) -> Result<(), Stop>
        requires asked { asking.is_asked job.now (string_bytes path) ≡ true }
        requires new { IsNewFile S.told job.now (string_bytes path) sight }
        ensures { OnOk result (TookLeaf S.told A.gives job.now levels (string_bytes path) name.now
            (A.seen self.old.archive) (A.seen self.new.archive) self.old.skipped.items self.new.skipped.items) }
    {
        match self.source.open(path.as_str(), &sight) {
            Ok(()) => {}
            Err(why) => return self.skip(path, why),
        }
        let seen = sight.size;
        let copied = self.copy(path.as_str(), seen)?;
        if let Some(why) = copied.failure {
            self.archive.drop_file()?;
            return self.skip(path, why);
        }
        let mut sight = sight;
        sight.size = copied.size;
        self.archive.end_file(name, &sight)?;
        match change_of(copied.size, seen) {
            Some(why) => self.skip(path, why),
            None => Ok(()),
        }
    }
}

/// The blobs of a file that an earlier backup has so.
fn unchanged<'a>(job: &'a Scope, path: &str, sight: &Stat) -> Option<&'a [Id]>
    ensures { MatchOption result ((content : List the_id) → IsUnchanged job.now path.now sight.now content → ⊥)
        (λ content. IsUnchanged job.now path.now sight.now content.now) }
{
    match job.known.get(path) {
        Some(known) if known.size == sight.size && known.mtime == sight.mtime => {
            Some(known.content.as_slice())
        }
        _ => None,
    }
}

/// Why a file of which so many bytes were read isn't as it was seen.
fn change_of(read: u64, seen: u64) -> Option<Why>
    ensures { result ≡ spec.change_of read seen }
{
    if read < seen {
        Some(Why::Shrank)
    } else if seen < read {
        Some(Why::Grew)
    } else {
        None
    }
}
