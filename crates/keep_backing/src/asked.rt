ghost use Rattle.std.specs.Prelude.{◌≡◌, IfOk, IfSome, Some, map, string_bytes};
ghost use Rattle.keep_backing.specs.Asked.{TakesWhatIsSaid, facts_of as asked_facts, job_of as asked_job};
ghost use Rattle.keep_backing.specs.Unchanged.{AreUnchanged};
ghost use Rattle.keep_backups.specs.Known.{known_at};
ghost use Rattle.keep_book.specs.Armed.{ledger_of};
ghost use Rattle.keep_patterns.specs.Parsing.{after_slash as behind_slash, pattern_of, pattern_view};
ghost use Rattle.keep_sources.specs.Job.{paths_of};

use crate::places::place_of;
use crate::unchanged::unchanged;
use keep_backup::BackupFacts;
use keep_book::Book;
use keep_host_source::{host_name, user_name};
use keep_run::{Failure, Run, patterns_of};
use keep_shelf::Shelf;
use keep_sources::{Known, Scope};
use keep_tables::utc_time;
use keep_words::Backup;
use std::alloc::Global;
use std::collections::HashMap;
use std::io;
use std::sync::Arc;

/// What a backup takes of the machine's files, and what its snapshot says of itself.
#[derive(Drop)]
pub struct Asked {
    pub(crate) facts: BackupFacts,
    pub(crate) job: Arc<Scope, Global>,
}

impl Asked {
    /// What is taken, from the root of the machine's files on.
    pub fn job(&self) -> &Arc<Scope, Global>
        ensures { result.now.value ≡ asked_job self.now }
    {
        &self.job
    }

    /// These facts, and what the words ask for of the source. Files are known by their paths below its root.
    pub(crate) fn of(
        run: &Run<'_>,
        words: &Backup<'_>,
        facts: BackupFacts,
        known: HashMap<String, Known>,
    ) -> Result<Asked, Failure>
        ensures facts { IfOk result (λ asked. asked.facts ≡ facts) }
        ensures paths { IfOk result (λ asked. TakesWhatIsSaid asked) }
        ensures excludes { IfOk result (λ asked. map (λ pattern. Some (pattern_view pattern)) (asked_job asked).excludes.items
            ≡ map (λ word. pattern_of word.now) words.now.exclude.items) }
        ensures known { IfOk result (λ asked. (asked_job asked).known ≡ known) }
    {
        let job = job_of(run, words, facts.paths.as_slice(), known)?;
        let job = Arc::new(run.alloc, job)?;
        Ok(Asked { facts, job })
    }
}

/// What the words ask for. Files that the last snapshot of this host and these paths has unchanged are known.
pub fn asked_for<S: Shelf>(
    run: &Run<'_>,
    book: &Book<S>,
    words: &Backup<'_>,
) -> Result<Asked, Failure>
    ensures host { IfOk result (λ asked. IfSome words.now.host (λ host. (asked_facts asked).host ≡ host.now)) }
    ensures time { IfOk result (λ asked. IfSome words.now.time (λ time. (asked_facts asked).time ≡ time.now)) }
    ensures paths { IfOk result (λ asked. TakesWhatIsSaid asked) }
    ensures excludes { IfOk result (λ asked. map (λ pattern. Some (pattern_view pattern)) (asked_job asked).excludes.items
        ≡ map (λ word. pattern_of word.now) words.now.exclude.items) }
    ensures known { IfOk result (λ asked.
        ∥ AreUnchanged (ledger_of book.now) (asked_facts asked) (known_at (asked_job asked).known) ∥₁) }
{
    let facts = facts_of(run, words)?;
    let known = unchanged(run, book, &facts)?;
    Asked::of(run, words, facts, known)
}

/// What the snapshot says of itself.
fn facts_of(run: &Run<'_>, words: &Backup<'_>) -> Result<BackupFacts, Failure>
    ensures host { IfOk result (λ facts. IfSome words.now.host (λ host. string_bytes facts.host ≡ host.now)) }
    ensures time { IfOk result (λ facts. IfSome words.now.time (λ time. string_bytes facts.time ≡ time.now)) }
{
    let mut paths = Vec::new(run.alloc);
    for word in &words.paths {
        paths.push(place_of(run, word)?)?;
    }
    let host = match words.host {
        Some(host) => String::from_str(run.alloc, host)?,
        None => said(run, "the machine's name", host_name(run.rt))?,
    };
    let time = match words.time {
        Some(time) => String::from_str(run.alloc, time)?,
        None => utc_time(run.alloc, run.now)?,
    };
    Ok(BackupFacts {
        host,
        user: said(run, "who runs this", user_name(run.rt))?,
        paths,
        time,
    })
}

/// What the machine says of itself.
fn said(run: &Run<'_>, what: &str, said: io::Result<String>) -> Result<String, Failure> {
    match said {
        Ok(text) => Ok(text),
        Err(error) => {
            let cause = format!(in run.alloc; "cannot tell {what}: {error}")?;
            Err(Failure::Refused(cause))
        }
    }
}

/// What is taken from the root of the machine's files.
fn job_of(
    run: &Run<'_>,
    words: &Backup<'_>,
    places: &[String],
    known: HashMap<String, Known>,
) -> Result<Scope, Failure>
    ensures paths { IfOk result (λ job. paths_of job ≡ map behind_slash (map string_bytes places.now)) }
    ensures excludes { IfOk result (λ job. map (λ pattern. Some (pattern_view pattern)) job.excludes.items
        ≡ map (λ word. pattern_of word.now) words.now.exclude.items) }
    ensures known { IfOk result (λ job. job.known ≡ known) }
{
    let mut paths = Vec::new(run.alloc);
    for place in places {
        let path = after_slash(place.as_str());
        paths.push(String::from_str(run.alloc, path)?)?;
    }
    Ok(Scope {
        paths,
        excludes: patterns_of(run, words.exclude.as_slice())?,
        known,
    })
}

/// A path without the slash that it begins with.
fn after_slash<'a>(path: &'a str) -> &'a str
    ensures { result.now ≡ behind_slash path.now }
{
    match path.strip_prefix('/') {
        Some(rest) => rest,
        None => path,
    }
}
