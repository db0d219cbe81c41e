ghost use Rattle.std.specs.Prelude.{◌≡◌, ◌≢◌, ◌≤◌, ◌<◌, ◌⊎◌, IfErr, IfOk, IfSome, OnErr, length};
ghost use Rattle.std.specs.Io.KnownBytes.{Keeps};
ghost use Rattle.keep_ledger.specs.Opened.{IsGivenBack, IsNotOpened};
ghost use Rattle.keep_book.specs.Armed.{HasSums};
ghost use Rattle.keep_jobs.specs.Job.{settings_view};
ghost use Rattle.keep_jobs.specs.Kits.{kit_view};
ghost use Rattle.keep_answers.specs.Known.{Writes, WritesLines};
ghost use Rattle.keep_answers.specs.State.{State, kit_of};
ghost use Rattle.keep_script.specs.Begun.{begun_over};
ghost use Rattle.keep_script.specs.Left.{IsLeft};
ghost use Rattle.keep_script.specs.Line.{longest_script};
ghost use Rattle.keep_script.specs.Run.{Ends, EndsFrom, IsUntouched};
ghost use Rattle.keep_script.specs.Status.{ReachesEnd};

use crate::flushing::flush;
use crate::status::RunStatus;
use crate::turns::Turns;
use keep_book::Book;
use keep_hashing::{Hashing, OneByOne};
use keep_jobs::{Kit, Settings};
use keep_ledger::NotOpened;
use keep_shelf::Shelf;
use std::alloc::Global;
use std::io::{Read, Write};

/// What a run takes its memory from, and what its jobs go by from the first line to the last.
#[derive(Clone, Copy)]
pub struct Setup {
    pub alloc: Global,
    pub settings: Settings,
}

/// Answers the lines of a script in turn, over the book that is opened of a shelf. It is handed back with how the run
/// ended, as the last line left it. Where the shelf isn't opened it is handed back, and nothing is read or written.
///
/// A line has at most 1,048,576 bytes before its end. The reader is given up after 67,108,864
/// bytes. Whatever ends the run, the lines before were answered.
///
/// The writer is flushed before each read, and at the end. The answers to `list`, `history`,
/// `restore` and `audit` are written line by line. Where one finds no memory midway, its first
/// lines are written already, and the run ends as `NoMemory`.
///
/// Lines name the filters of the kit, and arm its vetoes and watches, which are moved out of it: what is left in the
/// kit is what the last line left.
///
/// One piece is hashed after another, at the opening and by lines. `Book::open_with` and `run_on` are handed who hashes.
pub fn run<S: Shelf, R: Read, W: Write>(
    setup: Setup,
    shelf: S,
    kit: &mut Kit,
    reader: &mut R,
    writer: &mut W,
) -> Result<(RunStatus, Book<S>), NotOpened<S>>
    requires some { 0 < setup.settings.cut.bytes }
    ensures answers { IfOk result (λ ran. Writes (W.contents writer.old) (W.contents writer.new) (λ text. (after : State)
        × IsLeft after ran.1 × (kit_view kit.new ≡ kit_of after)
        × EndsFrom (S.shelved shelf) (settings_view setup.settings) (kit_view kit.old)
        (R.remaining reader.old) (R.remaining reader.new) text ran.0 after)) }
    ensures sums { IfOk result (λ ran. HasSums ran.1) }
    ensures whole { IfOk result (λ ran. ran.0 ≢ RunStatus.WriteFailed →
        WritesLines (W.contents writer.old) (W.contents writer.new)) }
    ensures limit { IfOk result (λ ran. ReachesEnd ran.0 →
        IfSome (R.remaining reader.old) (λ script. length script < longest_script)) }
    ensures past_limit { IfOk result (λ ran. ran.0 ≡ RunStatus.ScriptTooLong →
        IfSome (R.remaining reader.old) (λ script. longest_script ≤ length script)) }
    ensures refused { IfErr result (λ given. IsNotOpened (S.shelved shelf) given.error) }
    ensures given { IfErr result (λ given. IsGivenBack (S.shelved shelf) given.error (S.shelved given.shelf)) }
    ensures untouched { OnErr result (IsUntouched (R.remaining reader.old) (R.remaining reader.new)
        (W.contents writer.old) (W.contents writer.new) × (kit_view kit.new ≡ kit_view kit.old)) }
{
    let mut book = Book::open(setup.alloc, shelf)?;
    let status = run_on(setup, &mut book, kit, OneByOne, reader, writer);
    Ok((status, book))
}

/// Answers the lines of a script over this book, which is left as the last line left it, as the kit is. Where `mark` and
/// `audit` have much to hash, `hashing` does it. The same holds of it as of `run`, which opens a book and goes on so.
pub fn run_on<S: Shelf, H: Hashing + Copy, R: Read, W: Write>(
    setup: Setup,
    book: &mut Book<S>,
    kit: &mut Kit,
    hashing: H,
    reader: &mut R,
    writer: &mut W,
) -> RunStatus
    requires sums { HasSums book.old }
    ensures answers { Writes (W.contents writer.old) (W.contents writer.new) (λ text. (after : State)
        × IsLeft after book.new × (kit_view kit.new ≡ kit_of after)
        × Ends (begun_over (settings_view setup.settings) (kit_view kit.old) book.old)
        (R.remaining reader.old) (R.remaining reader.new) text result after) }
    ensures sums { HasSums book.new }
    ensures whole { result ≢ RunStatus.WriteFailed → WritesLines (W.contents writer.old) (W.contents writer.new) }
    ensures limit { ReachesEnd result →
        IfSome (R.remaining reader.old) (λ script. length script < longest_script) }
    ensures past_limit { result ≡ RunStatus.ScriptTooLong →
        IfSome (R.remaining reader.old) (λ script. longest_script ≤ length script) }
{
    let Ok(mut turns) = Turns::new(setup) else {
        return RunStatus::NoMemory;
    };
    let status = turns.answer_all(kit, book, hashing, reader, writer);
    finish(status, writer)
}

/// Hands on what the writer keeps back, and says how the run ended.
fn finish<W: Write>(status: RunStatus, writer: &mut W) -> RunStatus
    ensures kept { Keeps (W.contents writer.old) (W.contents writer.new) }
    ensures status { (result ≡ status) ⊎ (result ≡ RunStatus.WriteFailed) }
{
    let flushed = flush(writer);
    status.once_flushed(flushed)
}
