ghost use Rattle.std.specs.Prelude.{◌≡◌, [], ◌∷◌, ◌<◌, IfOk, length, map};
ghost use Rattle.keep_docs.specs.Doc.{Answers};
ghost use Rattle.keep_repo.specs.Repository.{empty_repository};
ghost use Rattle.keep_backup.specs.Backup.{backup_change, facts_view};
ghost use Rattle.keep_backup.specs.Files.{given_view};
ghost use Rattle.keep_plan.specs.declared.plan_error.PlanError.TheVariants.{Memory};
ghost use Rattle.keep_bench.specs.Backup.{backed_up_of, bench_facts, bench_file};
ghost use Rattle.keep_bench.specs.Backup as spec;

use keep_backup::{BackupFacts, plan_backup};
use keep_build::Cut;
use keep_catalog::LiveRepo;
use keep_change::{Change, Planned};
use keep_journal::History;
use keep_names::Id;
use keep_plan::PlanError;
use keep_repo::Repo;
use keep_view::View;
use std::alloc::{AllocError, Global};

/// After how many bytes a file is cut.
const CUT: u32 = 1_048_576;

/// What is told of a backup: its snapshot, and how many files it adds.
#[derive(Clone, Copy, PartialEq, Eq)]
pub(crate) struct BackedUp {
    pub snapshot: Id,
    pub adds: usize,
}

/// Backs up one file of these bytes into an empty repository.
pub(crate) fn back_up(alloc: Global, bytes: Vec<u8>) -> Result<BackedUp, PlanError>
    ensures { Answers Memory (λ told. told) (backed_up_of bytes.items) result }
{
    let files = files_of(alloc, bytes)?;
    let facts = facts(alloc)?;
    let plan = plan_alone(alloc, &files, &facts)?;
    Ok(change_summary(&plan.change))
}

/// Plans the backup of these files into an empty repository.
fn plan_alone(
    alloc: Global,
    files: &[(String, Vec<u8>)],
    facts: &BackupFacts,
) -> Result<Planned, PlanError>
    ensures { Answers Memory (λ planned. planned.change)
        (backup_change empty_repository (facts_view facts.now) 1_048_576 (map given_view files.now)) result }
{
    let live = LiveRepo::new(alloc, Repo::new(alloc));
    let history = History::new(alloc, 0);
    let view = View::without_events(&live, &history);
    plan_backup(alloc, &view, files, facts, Cut::after(CUT))
}

/// What is told of a change that adds files, the snapshot last.
fn change_summary(change: &Change) -> BackedUp
    requires { 0 < length change.now.adds }
    ensures { result ≡ spec.change_summary change.now }
{
    let adds = change.adds.as_slice();
    BackedUp {
        snapshot: adds[adds.len() - 1].name().id,
        adds: adds.len(),
    }
}

/// The one file, by its path.
fn files_of(alloc: Global, bytes: Vec<u8>) -> Result<Vec<(String, Vec<u8>)>, AllocError>
    ensures { IfOk result (λ files. map given_view files.items ≡ bench_file bytes.items ∷ []) }
{
    let path = String::from_str(alloc, "/a")?;
    let mut files = Vec::with_capacity(alloc, 1)?;
    files.push((path, bytes))?;
    Ok(files)
}

/// Who backs up, and when.
fn facts(alloc: Global) -> Result<BackupFacts, AllocError>
    ensures { IfOk result (λ facts. facts_view facts ≡ bench_facts) }
{
    let mut paths = Vec::with_capacity(alloc, 1)?;
    paths.push(String::from_str(alloc, "/")?)?;
    Ok(BackupFacts {
        host: String::from_str(alloc, "web")?,
        user: String::from_str(alloc, "keep")?,
        paths,
        time: String::from_str(alloc, "2024-01-01T10:00:00Z")?,
    })
}
