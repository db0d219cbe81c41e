ghost use Rattle.std.specs.Prelude.{◌≡◌, IfOk, codes, length};
ghost use Rattle.keep_backup.specs.Backup.{facts_view};
ghost use Rattle.keep_backup.specs.Files.{given_view};
ghost use Rattle.keep_jobs.specs.Job.{settings_view};
ghost use Rattle.keep_jobs.specs.Resolving as spec;
ghost use Rattle.keep_operators.specs.Backups as crew;
ghost use Rattle.keep_operators.specs.Asked.{AreAsked, job_of};

use crate::each_snapshot::EachSnapshot;
use crate::planner::Planner;
use keep_backup::BackupFacts;
use keep_crew::Work;
use keep_jobs::{Job, Settings};
use std::alloc::{AllocError, Global};

/// What a crew of this size is asked for, from operator 0 on: each backs up one file of its own, at this time.
pub fn crew_of(
    alloc: Global,
    size: u32,
    settings: Settings,
    time: &str,
) -> Result<Vec<Work<Planner<EachSnapshot>>>, AllocError>
    ensures long { IfOk result (λ works. length works.items ≡ size) }
    ensures asked { IfOk result (λ works. AreAsked (settings_view settings) (crew.backup_of time.now) works.items) }
{
    let mut works = Vec::new(alloc);
    for operator in 0..size {
        let job = backup_of(alloc, operator, time)?;
        works.push(Work::Plan(Planner {
            alloc,
            settings,
            job,
        }))?;
    }
    Ok(works)
}

/// What the operator of this number backs up.
fn backup_of(alloc: Global, operator: u32, time: &str) -> Result<Job<EachSnapshot>, AllocError>
    ensures { IfOk result (λ job. job_of job ≡ crew.backup_of time.now operator) }
{
    let facts = facts_at(alloc, time)?;
    let mut files = Vec::new(alloc);
    files.push(file_of(alloc, operator)?)?;
    Ok(Job::Backup { facts, files })
}

fn file_of(alloc: Global, operator: u32) -> Result<(String, Vec<u8>), AllocError>
    ensures { IfOk result (λ file. given_view file ≡ crew.file_of operator) }
{
    let path = format!(in alloc; "/crew-{operator}")?;
    let bytes = format!(in alloc; "{operator}")?.into_bytes();
    Ok((path, bytes))
}

/// Who backs up, at this time.
fn facts_at(alloc: Global, time: &str) -> Result<BackupFacts, AllocError>
    ensures { IfOk result (λ facts. facts_view facts ≡ spec.facts_of (codes "crew") time.now) }
{
    let host = String::from_str(alloc, "crew")?;
    let user = String::from_str(alloc, "keep")?;
    let root = String::from_str(alloc, "/")?;
    let mut paths = Vec::new(alloc);
    paths.push(root)?;
    let time = String::from_str(alloc, time)?;
    Ok(BackupFacts {
        host,
        user,
        paths,
        time,
    })
}
