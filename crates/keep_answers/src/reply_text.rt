ghost use Rattle.std.specs.Prelude.{◌≡◌, ◌≢◌, Err};
ghost use Rattle.std.specs.Result.{result_map_both};
ghost use Rattle.keep_replies.specs.Reply.{told_text};
ghost use Rattle.keep_read.specs.Restored.{restored_view};
ghost use Rattle.keep_answers.specs.Known.{Puts, WritesLines};
ghost use Rattle.keep_answers.specs.State as states;
ghost use Rattle.keep_answers.specs.Text as texts;

use crate::answer_lists::{write_findings, write_restored};
use crate::arming::Unarmed;
use crate::halt::Halt;
use crate::output::put_line;
use keep_book::TakenBack;
use keep_ledger::{Refusal, Told};
use keep_plan::PlanError;
use keep_read::{Finding, RestoreError, RestoredFiles};
use keep_replies::{Accepted, Armed, Committed, Refused, Sizes, TakenNumbers};
use std::alloc::{AllocError, Global};
use std::io::Write;

/// What came of a commit: the book's reply, and how much the change writes.
pub(crate) type Outcome = (Result<Told, Refusal>, Sizes);

/// Whether the reply is that a call of the shelf failed.
pub(crate) fn is_fault(reply: &Result<Told, Refusal>) -> bool
    ensures { result ≡ states.is_fault reply.now }
{
    matches!(reply, Err(Refusal::Fault | Refusal::Unsettled(_)))
}

/// Whether what stopped a book is that a call of the shelf failed.
pub(crate) fn is_stopped_by_fault(stopped: &Option<Refusal>) -> bool
    ensures { result ≡ states.is_stopped_by_fault stopped.now }
{
    matches!(stopped, Some(Refusal::Fault | Refusal::Unsettled(_)))
}

/// Writes the answer to a request to the book about an earlier change.
pub(crate) fn write_reply<W: Write>(
    alloc: Global,
    reply: Result<Told, Refusal>,
    writer: &mut W,
) -> Result<(), Halt>
    ensures puts { Puts (W.contents writer.old) (W.contents writer.new) (texts.reply_answer told_text reply) result }
    ensures whole { result ≢ Err Halt.WriteFailed → WritesLines (W.contents writer.old) (W.contents writer.new) }
{
    match reply {
        Ok(told) => put_line(alloc, &Accepted(told), writer),
        Err(refusal) => put_line(alloc, &Refused(refusal), writer),
    }
}

/// Writes the answer to changes that were to be taken back: their numbers, where there are any, and why there are no
/// more.
#[tactic(auto, using(crate::proofs::KnownLemmas::puts_both))]
pub(crate) fn write_taken<W: Write>(
    alloc: Global,
    taken: TakenBack,
    writer: &mut W,
) -> Result<(), Halt>
    ensures puts { Puts (W.contents writer.old) (W.contents writer.new)
        (texts.taken_answer taken.numbers.items taken.stopped) result }
    ensures whole { result ≢ Err Halt.WriteFailed → WritesLines (W.contents writer.old) (W.contents writer.new) }
{
    write_numbers(alloc, taken.numbers.as_slice(), writer)?;
    write_stop(alloc, taken.stopped, writer)
}

/// Writes the line of the changes that were taken back, where there are any.
fn write_numbers<W: Write>(alloc: Global, numbers: &[u64], writer: &mut W) -> Result<(), Halt>
    ensures puts { Puts (W.contents writer.old) (W.contents writer.new) (texts.numbers_answer numbers.now) result }
    ensures whole { result ≢ Err Halt.WriteFailed → WritesLines (W.contents writer.old) (W.contents writer.new) }
{
    if numbers.is_empty() {
        return Ok(());
    }
    put_line(alloc, &TakenNumbers(numbers), writer)
}

/// Writes the line of the refusal, where there is one.
fn write_stop<W: Write>(alloc: Global, stopped: Option<Refusal>, writer: &mut W) -> Result<(), Halt>
    ensures puts { Puts (W.contents writer.old) (W.contents writer.new) (texts.stop_answer stopped) result }
    ensures whole { result ≢ Err Halt.WriteFailed → WritesLines (W.contents writer.old) (W.contents writer.new) }
{
    match stopped {
        Some(refusal) => put_line(alloc, &Refused(refusal), writer),
        None => Ok(()),
    }
}

/// Writes the answer to a change that was to be committed.
pub(crate) fn write_committed<W: Write>(
    alloc: Global,
    outcome: Outcome,
    writer: &mut W,
) -> Result<(), Halt>
    ensures puts { Puts (W.contents writer.old) (W.contents writer.new)
        (texts.reply_answer (texts.commit_text outcome.1) outcome.0) result }
    ensures whole { result ≢ Err Halt.WriteFailed → WritesLines (W.contents writer.old) (W.contents writer.new) }
{
    let (reply, sizes) = outcome;
    match reply {
        Ok(told) => put_line(alloc, &Committed { told, sizes }, writer),
        Err(refusal) => put_line(alloc, &Refused(refusal), writer),
    }
}

/// Writes the answer to a job that was to be planned and committed.
pub(crate) fn write_outcome<W: Write>(
    alloc: Global,
    outcome: Result<Outcome, PlanError>,
    writer: &mut W,
) -> Result<(), Halt>
    ensures puts { Puts (W.contents writer.old) (W.contents writer.new) (texts.outcome_answer outcome) result }
    ensures whole { result ≢ Err Halt.WriteFailed → WritesLines (W.contents writer.old) (W.contents writer.new) }
{
    match outcome {
        Ok(committed) => write_committed(alloc, committed, writer),
        Err(refusal) => put_line(alloc, &Refused(refusal), writer),
    }
}

/// Writes the answer to `restore`.
pub(crate) fn write_restore<W: Write>(
    alloc: Global,
    outcome: Result<RestoredFiles, RestoreError>,
    writer: &mut W,
) -> Result<(), Halt>
    ensures puts { Puts (W.contents writer.old) (W.contents writer.new)
        (texts.restore_answer (result_map_both restored_view (λ refusal. refusal) outcome)) result }
    ensures whole { result ≢ Err Halt.WriteFailed → WritesLines (W.contents writer.old) (W.contents writer.new) }
{
    match outcome {
        Ok(restored) => write_restored(alloc, &restored, writer),
        Err(refusal) => put_line(alloc, &Refused(refusal), writer),
    }
}

/// Writes the answer to `audit`.
pub(crate) fn write_audit<W: Write>(
    alloc: Global,
    outcome: Result<Vec<Finding>, AllocError>,
    writer: &mut W,
) -> Result<(), Halt>
    ensures puts { Puts (W.contents writer.old) (W.contents writer.new)
        (texts.audit_answer (result_map_both (λ findings. findings.items) (λ error. error) outcome)) result }
    ensures whole { result ≢ Err Halt.WriteFailed → WritesLines (W.contents writer.old) (W.contents writer.new) }
{
    match outcome {
        Ok(findings) => write_findings(alloc, &findings, writer),
        Err(_) => put_line(alloc, &Refused(Refusal::Memory), writer),
    }
}

/// Writes the answer to `arm`.
pub(crate) fn write_armed<W: Write>(
    alloc: Global,
    name: &str,
    outcome: Result<(), Unarmed>,
    writer: &mut W,
) -> Result<(), Halt>
    ensures puts { Puts (W.contents writer.old) (W.contents writer.new)
        (texts.arming_answer name.now outcome) result }
    ensures whole { result ≢ Err Halt.WriteFailed → WritesLines (W.contents writer.old) (W.contents writer.new) }
{
    match outcome {
        Ok(()) => put_line(alloc, &Armed(name), writer),
        Err(Unarmed::DoubleName) => put_line(alloc, &Refused("DoubleName"), writer),
        Err(Unarmed::Memory) => put_line(alloc, &Refused(Refusal::Memory), writer),
    }
}
