ghost use Rattle.std.specs.Prelude.{◌≡◌, IfOk};
ghost use Rattle.keep_words.specs.Faults.{forget_fault};
ghost use Rattle.keep_words.specs.Read.{Reads, rows_in};
ghost use Rattle.keep_words.specs.Said.{IsForget, IsKeep, keeps_any};

use crate::reads::chosen;
use clap::error::ErrorKind;
use clap::{ArgMatches, Error};
use keep_words::{Forget, Keep, count, flag, refusal, texts};
use std::alloc::{AllocError, Global};

/// The forget that is asked for, which has to keep something.
pub(crate) fn forget<'a>(alloc: Global, matches: &ArgMatches<'a>) -> Result<Forget<'a>, Error>
    ensures { Reads (forget_fault (rows_in matches.now)) (IsForget (rows_in matches.now)) result }
{
    let keep = keep(alloc, matches)?;
    if !keeps_some(&keep) {
        let usage = "keep forget [--host HOST] [--tag TAG] [--path PATH] --keep-last N [OPTIONS]";
        let message = "a forget needs at least one of the options --keep-..";
        return Err(refusal(alloc, usage, ErrorKind::MissingRequiredArgument, message));
    }
    Ok(Forget {
        chosen: chosen(matches),
        keep,
        dry_run: flag(matches, "dry-run"),
    })
}

fn keep<'a>(alloc: Global, matches: &ArgMatches<'a>) -> Result<Keep<'a>, AllocError>
    ensures { IfOk result (IsKeep (rows_in matches.now)) }
{
    let tags = texts(alloc, matches, "keep-tag")?;
    Ok(Keep {
        last: count(matches, "keep-last"),
        daily: count(matches, "keep-daily"),
        weekly: count(matches, "keep-weekly"),
        monthly: count(matches, "keep-monthly"),
        yearly: count(matches, "keep-yearly"),
        tags,
    })
}

fn keeps_some(keep: &Keep<'_>) -> bool
    ensures { result ≡ keeps_any keep.now }
{
    let by_day = keep.last.is_some() | keep.daily.is_some() | keep.weekly.is_some();
    let by_month = keep.monthly.is_some() | keep.yearly.is_some();
    by_day | by_month | !keep.tags.is_empty()
}
