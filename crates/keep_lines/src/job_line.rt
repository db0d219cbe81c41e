ghost use Rattle.std.specs.Prelude.{◌≡◌, ◌≢◌, IfNone, IfOk, IfSome, codes};
ghost use Rattle.keep_lines.specs.JobLine.{IsJob, job_text};
ghost use Rattle.keep_names.specs.Parses.{Parses};

use crate::backup_line::{BackupLine, parse_backup};
use crate::forget_line::{ForgetLine, parse_forget};
use crate::rewrite_line::{RewriteLine, parse_rewrite};
use crate::tag_line::{TagLine, parse_tag};
use keep_names::parse_number;
use std::alloc::{AllocError, Global};

/// What a line asks one planner for. Filters stand in it by their names.
#[derive(Drop)]
pub enum JobLine {
    Backup(BackupLine),
    Tag(TagLine),
    Forget(ForgetLine),
    Rewrite(RewriteLine),
    /// One index of all packs in the place of all that there are.
    Repair,
    /// Marks for the packs that no snapshot needs.
    Mark,
    /// To drop the packs whose marks have waited so many seconds; without a number, none.
    Sweep(Option<u64>),
}

/// The job that the line asks for.
pub(crate) fn parse_job(alloc: Global, text: &str) -> Result<Option<JobLine>, AllocError>
    ensures { IfOk result (Parses IsJob job_text text.now) }
{
    let Some((verb, rest)) = text.split_once(' ') else {
        return Ok(bare_job(text));
    };
    match verb {
        "backup" => Ok(parse_backup(alloc, rest)?.map(JobLine::Backup)),
        "tag" => Ok(parse_tag(alloc, rest)?.map(JobLine::Tag)),
        "forget" => Ok(parse_forget(alloc, rest)?.map(JobLine::Forget)),
        "rewrite" => Ok(parse_rewrite(alloc, rest)?.map(JobLine::Rewrite)),
        "sweep" => Ok(parse_number(rest).map(|wait| JobLine::Sweep(Some(wait)))),
        _ => Ok(None),
    }
}

/// The job of a line of one word.
fn bare_job(word: &str) -> Option<JobLine>
    ensures value { IfSome result (λ job. IsJob job × (job_text job ≡ word.now)) }
    ensures none { IfNone result
        ((word.now ≢ codes "repair") × (word.now ≢ codes "mark") × (word.now ≢ codes "sweep")) }
{
    match word {
        "repair" => Some(JobLine::Repair),
        "mark" => Some(JobLine::Mark),
        "sweep" => Some(JobLine::Sweep(None)),
        _ => None,
    }
}
