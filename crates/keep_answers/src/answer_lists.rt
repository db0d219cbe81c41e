ghost use Rattle.std.specs.Prelude.{◌≡◌, ◌≢◌, Err, length};
ghost use Rattle.std.specs.FinMap as map;
ghost use Rattle.keep_hooks.specs.Rules.{tallies_of, tally_of};
ghost use Rattle.keep_read.specs.Restored.{restored_view};
ghost use Rattle.keep_answers.specs.Known.{Puts, WritesLines};
ghost use Rattle.keep_answers.specs.Files.{bytes_in};
ghost use Rattle.keep_answers.specs.Text as texts;

use crate::halt::Halt;
use crate::output::put_line;
use keep_hooks::ArmedWatch;
use keep_journal::{History, Notice};
use keep_lines::print_hex;
use keep_names::{FileName, Kind};
use keep_read::{Finding, RestoredFiles};
use keep_replies::{
    Counts, EventLine, FileLine, FindingLine, FoundCount, RestoredCounts, RestoredFile, TotalLine,
};
use keep_repo::Repo;
use std::alloc::Global;
use std::io::Write;

// Each line of these answers is made, written and let go before the next one, so an error may come after some.

/// Writes the answer to `list`: each file in the order of names, and then the counts.
pub(crate) fn write_list<W: Write>(alloc: Global, repo: &Repo, writer: &mut W) -> Result<(), Halt>
    ensures puts { Puts (W.contents writer.old) (W.contents writer.new) (texts.list_answer repo.now) result }
    ensures whole { result ≢ Err Halt.WriteFailed → WritesLines (W.contents writer.old) (W.contents writer.new) }
{
    let (names, _) = repo.list()?;
    for name in &names {
        write_file(alloc, repo, *name, writer)?;
    }
    write_count(alloc, repo, writer)
}

fn write_file<W: Write>(
    alloc: Global,
    repo: &Repo,
    name: FileName,
    writer: &mut W,
) -> Result<(), Halt>
    ensures puts { Puts (W.contents writer.old) (W.contents writer.new) (texts.file_line repo.now name) result }
    ensures whole { result ≢ Err Halt.WriteFailed → WritesLines (W.contents writer.old) (W.contents writer.new) }
{
    let length = length_of(repo, name);
    let marked = is_marked(repo, name);
    let file = FileLine {
        name,
        length,
        marked,
    };
    put_line(alloc, &file, writer)
}

/// How many bytes the file has, none where it isn't there.
fn length_of(repo: &Repo, name: FileName) -> usize
    ensures { result ≡ length (bytes_in repo.now name) }
{
    match repo.get(name) {
        Some(bytes) => bytes.as_slice().len(),
        None => 0,
    }
}

/// Whether the file is a marked pack.
fn is_marked(repo: &Repo, name: FileName) -> bool
    ensures { result ≡ texts.is_marked repo.now name }
{
    match name.kind {
        Kind::Pack => repo.is_marked(name.id),
        _ => false,
    }
}

/// Writes the answer to `count`.
pub(crate) fn write_count<W: Write>(alloc: Global, repo: &Repo, writer: &mut W) -> Result<(), Halt>
    ensures puts { Puts (W.contents writer.old) (W.contents writer.new) (texts.count_answer repo.now) result }
    ensures whole { result ≢ Err Halt.WriteFailed → WritesLines (W.contents writer.old) (W.contents writer.new) }
{
    let counts = Counts {
        files: repo.file_count(),
        marks: repo.mark_count(),
    };
    put_line(alloc, &counts, writer)
}

/// Writes the answer to `history`: each event with its number, and the number of its change.
pub(crate) fn write_history<W: Write>(
    alloc: Global,
    history: &History,
    writer: &mut W,
) -> Result<(), Halt>
    ensures puts { Puts (W.contents writer.old) (W.contents writer.new)
        (texts.history_answer history.now.journal) result }
    ensures whole { result ≢ Err Halt.WriteFailed → WritesLines (W.contents writer.old) (W.contents writer.new) }
{
    for notice in history.notices() {
        write_event(alloc, notice, writer)?;
    }
    Ok(())
}

fn write_event<W: Write>(alloc: Global, notice: &Notice, writer: &mut W) -> Result<(), Halt>
    ensures puts { Puts (W.contents writer.old) (W.contents writer.new) (texts.event_line notice.now) result }
    ensures whole { result ≢ Err Halt.WriteFailed → WritesLines (W.contents writer.old) (W.contents writer.new) }
{
    let event = EventLine {
        at: notice.at,
        what: notice.what,
        change: notice.change,
    };
    put_line(alloc, &event, writer)
}

/// Writes the answer to `totals`: each watch with its total.
pub(crate) fn write_totals<W: Write>(
    alloc: Global,
    watches: &[ArmedWatch],
    writer: &mut W,
) -> Result<(), Halt>
    ensures puts { Puts (W.contents writer.old) (W.contents writer.new)
        (texts.totals_answer (tallies_of watches.now)) result }
    ensures whole { result ≢ Err Halt.WriteFailed → WritesLines (W.contents writer.old) (W.contents writer.new) }
{
    for watch in watches {
        write_total(alloc, watch, writer)?;
    }
    Ok(())
}

fn write_total<W: Write>(alloc: Global, watch: &ArmedWatch, writer: &mut W) -> Result<(), Halt>
    ensures puts { Puts (W.contents writer.old) (W.contents writer.new) (texts.total_line (tally_of watch.now)) result }
    ensures whole { result ≢ Err Halt.WriteFailed → WritesLines (W.contents writer.old) (W.contents writer.new) }
{
    let total = TotalLine {
        name: watch.name(),
        total: watch.total(),
    };
    put_line(alloc, &total, writer)
}

/// Writes what a restore gives: each file by path, and then the counts.
pub(crate) fn write_restored<W: Write>(
    alloc: Global,
    restored: &RestoredFiles,
    writer: &mut W,
) -> Result<(), Halt>
    ensures puts { Puts (W.contents writer.old) (W.contents writer.new)
        (texts.restored_answer (restored_view restored.now)) result }
    ensures whole { result ≢ Err Halt.WriteFailed → WritesLines (W.contents writer.old) (W.contents writer.new) }
{
    for (path, bytes) in &restored.files {
        write_restored_file(alloc, path, bytes, writer)?;
    }
    write_counts(alloc, restored, writer)
}

fn write_restored_file<W: Write>(
    alloc: Global,
    path: &str,
    bytes: &[u8],
    writer: &mut W,
) -> Result<(), Halt>
    ensures puts { Puts (W.contents writer.old) (W.contents writer.new)
        (texts.restored_line (path.now, bytes.now)) result }
    ensures whole { result ≢ Err Halt.WriteFailed → WritesLines (W.contents writer.old) (W.contents writer.new) }
{
    let hex = print_hex(alloc, bytes)?;
    let file = RestoredFile {
        path,
        hex: hex.as_str(),
    };
    put_line(alloc, &file, writer)
}

fn write_counts<W: Write>(
    alloc: Global,
    restored: &RestoredFiles,
    writer: &mut W,
) -> Result<(), Halt>
    ensures puts { let restored = restored_view restored.now in
        Puts (W.contents writer.old) (W.contents writer.new)
        (texts.restored_last (map.len restored.files) restored.skipped) result }
    ensures whole { result ≢ Err Halt.WriteFailed → WritesLines (W.contents writer.old) (W.contents writer.new) }
{
    let counts = RestoredCounts {
        files: restored.files.len(),
        skipped: restored.skipped,
    };
    put_line(alloc, &counts, writer)
}

/// Writes what an audit finds: each finding, and then their number.
pub(crate) fn write_findings<W: Write>(
    alloc: Global,
    findings: &[Finding],
    writer: &mut W,
) -> Result<(), Halt>
    ensures puts { Puts (W.contents writer.old) (W.contents writer.new)
        (texts.found_answer findings.now) result }
    ensures whole { result ≢ Err Halt.WriteFailed → WritesLines (W.contents writer.old) (W.contents writer.new) }
{
    for finding in findings {
        put_line(alloc, &FindingLine(finding), writer)?;
    }
    put_line(alloc, &FoundCount(findings.len()), writer)
}
