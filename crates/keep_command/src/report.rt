ghost use Rattle.std.specs.Prelude.{◌≡◌, ◌≢◌};
ghost use Rattle.keep_answers.specs.Known.{WritesLines};
ghost use Rattle.keep_script.specs.declared.status.RunStatus.{RunStatus};
ghost use Rattle.keep_command.specs.Ending.{ending_flushed};
ghost use Rattle.keep_command.specs.Following.{Reports, ReportsCrew, report_text};

use crate::ending::Ending;
use keep_answers::put_line;
use keep_operators::CrewTally;
use keep_script::RunStatus;
use std::alloc::Global;
use std::fmt;
use std::io::{self, Write};

/// What is said of a crew, as it prints.
#[derive(Clone, Copy)]
pub(crate) struct Report {
    /// How many operators it had.
    pub size: u32,
    pub tally: CrewTally,
}

impl fmt::Display for Report {
    ghost use Rattle.std.specs.Prelude.{Some};
    ghost use Rattle.keep_command.specs.Following.{report_text};

    ghost output = { λ report. Some (report_text report.size report.tally.accepted report.tally.length) };

    fn fmt<W: fmt::Write>(&self, f: &mut fmt::Formatter<W>) -> fmt::Result {
        let CrewTally { accepted, length } = self.tally;
        write!(f, "crew {} accepted {accepted} length {length}", self.size)
    }
}

/// Writes what a crew did as a line. That is held back where one of its backups wasn't accepted and the shelf can't be
/// told: it may be in.
pub(crate) fn report_crew<'a, W: Write>(
    alloc: Global,
    report: Report,
    is_sure: bool,
    writer: &mut W,
) -> Ending<'a>
    ensures tells { ReportsCrew (W.contents writer.old) (W.contents writer.new) report.size report.tally result }
    ensures whole { result ≢ Ending.Ran RunStatus.WriteFailed →
        WritesLines (W.contents writer.old) (W.contents writer.new) }
{
    if !is_sure && report.tally.accepted < u64::from(report.size) {
        return Ending::Ran(RunStatus::Untold);
    }
    report_tally(alloc, report, writer)
}

/// Writes the report as a line, and hands it on. Where there is no memory for the line it can't be written: `NoMemory`
/// would say that no crew worked.
fn report_tally<'a, W: Write>(alloc: Global, report: Report, writer: &mut W) -> Ending<'a>
    ensures reports { Reports (W.contents writer.old) (W.contents writer.new)
        (report_text report.size report.tally.accepted report.tally.length) result }
    ensures whole { result ≢ Ending.Ran RunStatus.WriteFailed →
        WritesLines (W.contents writer.old) (W.contents writer.new) }
{
    match put_line(alloc, &report, writer) {
        Ok(()) => end_flushed(writer.flush()),
        Err(_halt) => Ending::Ran(RunStatus::WriteFailed),
    }
}

/// How the program ends where this came of handing on what it has written last.
fn end_flushed<'a>(flushed: io::Result<()>) -> Ending<'a>
    ensures { result ≡ ending_flushed flushed }
{
    match flushed {
        Ok(()) => Ending::Ran(RunStatus::Done),
        Err(_error) => Ending::Ran(RunStatus::WriteFailed),
    }
}
