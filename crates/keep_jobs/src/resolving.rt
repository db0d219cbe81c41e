ghost use Rattle.std.specs.Prelude.{◌≡◌, IfErr, IfOk, None, Some, string_bytes};
ghost use Rattle.keep_backup.specs.Backup.{facts_view};
ghost use Rattle.keep_jobs.specs.Kits.{filters_of, rule_named};
ghost use Rattle.keep_jobs.specs.Resolving as spec;
ghost use Rattle.keep_jobs.specs.Resolving.{Resolves, job_of};
ghost use Rattle.keep_lines.specs.declared.command.LineError.TheVariants as the_error;
ghost use Rattle.keep_lines.specs.declared.job_line.JobLine.TheVariants as the_line;
ghost use Rattle.keep_lines.specs.declared.mistake.Mistake.TheVariants.{NoFilter};

use crate::job::{Job, Task};
use crate::kit::Kit;
use keep_backup::BackupFacts;
use keep_lines::{
    BackupLine, ForgetLine, JobLine, LineError, Mistake, RewriteLine, TagLine, edit_of, policy_of,
};
use keep_plan::Filter;
use std::alloc::{AllocError, Global};

/// The job that the line asks for, with the kit's filter in the place of its name.
///
/// That no filter has the name is found before memory is taken. A bad edit takes none: planning refuses it.
pub fn resolve(alloc: Global, kit: &Kit, line: JobLine) -> Result<Job<&Filter>, LineError>
    ensures { Resolves (λ filter. filter.now.rule) (job_of (filters_of kit.now) line) result }
{
    match line {
        JobLine::Backup(BackupLine { host, time, files }) => {
            let facts = facts_of(alloc, host, time)?;
            Ok(Job::Backup { facts, files })
        }
        JobLine::Tag(tag) => change_tags(alloc, kit, tag),
        JobLine::Forget(forget) => forget_some(alloc, kit, forget),
        JobLine::Rewrite(rewrite) => rewrite_some(kit, rewrite),
        JobLine::Repair => Ok(Job::Repair),
        JobLine::Mark => Ok(Job::Mark),
        JobLine::Sweep(wait) => Ok(Job::Sweep(wait.unwrap_or(0))),
    }
}

fn change_tags(alloc: Global, kit: &Kit, tag: TagLine) -> Result<Job<&Filter>, LineError>
    ensures { Resolves (λ filter. filter.now.rule) (job_of (filters_of kit.now) (the_line.Tag tag)) result }
{
    let filter = filter_named(kit, tag.filter.as_str())?;
    let edit = edit_of(alloc, &tag.words)?;
    let task = Task::Tag(edit);
    Ok(Job::Filtered { filter, task })
}

fn forget_some(alloc: Global, kit: &Kit, forget: ForgetLine) -> Result<Job<&Filter>, LineError>
    ensures { Resolves (λ filter. filter.now.rule) (job_of (filters_of kit.now) (the_line.Forget forget)) result }
{
    let filter = filter_named(kit, forget.filter.as_str())?;
    let policy = policy_of(alloc, &forget.rules)?;
    let task = Task::Forget(policy);
    Ok(Job::Filtered { filter, task })
}

fn rewrite_some(kit: &Kit, rewrite: RewriteLine) -> Result<Job<&Filter>, LineError>
    ensures { Resolves (λ filter. filter.now.rule) (job_of (filters_of kit.now) (the_line.Rewrite rewrite)) result }
{
    let RewriteLine {
        filter: name,
        forget,
        patterns,
    } = rewrite;
    let filter = filter_named(kit, name.as_str())?;
    let task = Task::Rewrite { forget, patterns };
    Ok(Job::Filtered { filter, task })
}

/// The kit's filter of this name.
fn filter_named<'a>(kit: &'a Kit, name: &str) -> Result<&'a Filter, LineError>
    ensures found { IfOk result (λ filter. rule_named name.now (filters_of kit.now) ≡ Some filter.now.rule) }
    ensures none { IfErr result (λ error. (error ≡ the_error.Bad NoFilter)
        × (rule_named name.now (filters_of kit.now) ≡ None)) }
{
    kit.filter(name).ok_or(LineError::Bad(Mistake::NoFilter))
}

/// Who backs up, and when.
fn facts_of(alloc: Global, host: String, time: String) -> Result<BackupFacts, AllocError>
    ensures { IfOk result (λ facts. facts_view facts ≡ spec.facts_of (string_bytes host) (string_bytes time)) }
{
    let root = String::from_str(alloc, "/")?;
    let user = String::from_str(alloc, "keep")?;
    let mut paths = Vec::new(alloc);
    paths.push(root)?;
    Ok(BackupFacts {
        host,
        user,
        paths,
        time,
    })
}
