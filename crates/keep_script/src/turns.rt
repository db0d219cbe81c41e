ghost use Rattle.std.specs.Prelude.{◌≡◌, ◌≢◌, ◌≤◌, ◌<◌, Err, IfOk, IfSome, Ok, OnOk, [], length, true, false};
ghost use Rattle.keep_book.specs.Armed.{HasSums};
ghost use Rattle.keep_jobs.specs.Job.{settings_view};
ghost use Rattle.keep_jobs.specs.Kits.{kit_view};
ghost use Rattle.keep_answers.specs.Known.{Writes, WritesLines};
ghost use Rattle.keep_answers.specs.State.{no_notes, notes_of, state_of};
ghost use Rattle.keep_script.specs.Input.{Counted, ahead_of, left_of, unread_of};
ghost use Rattle.keep_script.specs.Line.{longest_script};
ghost use Rattle.keep_script.specs.Run.{Ends, Refuses, StopsAt};
ghost use Rattle.keep_script.specs.Status.{ReachesEnd};
ghost use Rattle.keep_script.specs.Step.{AnswersNext};

use crate::input::{Input, Piece};
use crate::script::Setup;
use crate::status::{RunStatus, Stop};
use keep_answers::{Session, put_line};
use keep_book::Book;
use keep_hashing::Hashing;
use keep_jobs::Kit;
use keep_lines::Mistake;
use keep_replies::BadLine;
use keep_shelf::Shelf;
use std::alloc::{AllocError, Global};
use std::io::{Read, Write};

/// The lines of a script, and what is kept of them from one to the next.
#[derive(Drop)]
pub(crate) struct Turns {
    alloc: Global,
    input: Input,
    session: Session,
}

impl Turns {
    /// Nothing is read yet.
    pub fn new(setup: Setup) -> Result<Turns, AllocError>
        ensures settings { IfOk result (λ turns. settings_view turns.session.settings ≡ settings_view setup.settings) }
        ensures notes { IfOk result (λ turns. notes_of turns.session.notes ≡ no_notes) }
        ensures faultless { IfOk result (λ turns. turns.session.faulted ≡ false) }
        ensures unread { IfOk result (λ turns. unread_of turns.input ≡ []) }
        ensures ahead { IfOk result (λ turns. ahead_of turns.input ≡ longest_script) }
    {
        let Setup { alloc, settings } = setup;
        Ok(Turns {
            alloc,
            input: Input::new(alloc)?,
            session: Session::new(alloc, settings),
        })
    }

    /// Answers all lines over this book, which is left as the last line left it.
    pub fn answer_all<S: Shelf, H: Hashing + Copy, R: Read, W: Write>(
        &mut self,
        kit: &mut Kit,
        book: &mut Book<S>,
        hashing: H,
        reader: &mut R,
        writer: &mut W,
    ) -> RunStatus
        requires ahead { ahead_of self.old.input ≡ longest_script }
        requires sums { HasSums book.old }
        ensures answers { Writes (W.contents writer.old) (W.contents writer.new) (λ text.
            Ends (state_of (kit_view kit.old) self.old.session book.old)
            (left_of self.old.input (R.remaining reader.old)) (R.remaining reader.new) text result (state_of (kit_view kit.new) self.new.session book.new)) }
        ensures whole { result ≢ RunStatus.WriteFailed → WritesLines (W.contents writer.old) (W.contents writer.new) }
        ensures sums { HasSums book.new }
        ensures limit { ReachesEnd result →
            IfSome (left_of self.old.input (R.remaining reader.old)) (λ script. length script < longest_script) }
        ensures past_limit { result ≡ RunStatus.ScriptTooLong →
            IfSome (left_of self.old.input (R.remaining reader.old)) (λ script. longest_script ≤ length script) }
    {
        for number in 1..u64::MAX {
            match self.answer_next(kit, book, hashing, reader, writer) {
                Ok(true) => {}
                Ok(false) => return RunStatus::at_end(self.session.is_faulted()),
                Err(stop) => return stop_at(self.alloc, number, stop, writer),
            }
        }
        unreachable!()
    }

    /// Answers the next line, and says whether it had an end.
    fn answer_next<S: Shelf, H: Hashing + Copy, R: Read, W: Write>(
        &mut self,
        kit: &mut Kit,
        book: &mut Book<S>,
        hashing: H,
        reader: &mut R,
        writer: &mut W,
    ) -> Result<bool, Stop>
        requires { HasSums book.old }
        ensures answers { Writes (W.contents writer.old) (W.contents writer.new) (λ text.
            AnswersNext (state_of (kit_view kit.old) self.old.session book.old)
            (left_of self.old.input (R.remaining reader.old))
            (left_of self.new.input (R.remaining reader.new)) (R.remaining reader.new) text result
            (state_of (kit_view kit.new) self.new.session book.new)) }
        ensures whole { result ≢ Err Stop.WriteFailed → WritesLines (W.contents writer.old) (W.contents writer.new) }
        ensures sums { HasSums book.new }
        ensures spent { result ≡ Ok true → ahead_of self.new.input < ahead_of self.old.input }
        ensures counted { OnOk result (Counted
            (left_of self.old.input (R.remaining reader.old)) (ahead_of self.old.input)
            (left_of self.new.input (R.remaining reader.new)) (ahead_of self.new.input)) }
        ensures more { result ≡ Ok false → 0 < ahead_of self.new.input }
        ensures past_limit { result ≡ Err Stop.ScriptTooLong →
            IfSome (left_of self.old.input (R.remaining reader.old)) (λ bytes. ahead_of self.old.input ≤ length bytes) }
    {
        match self.input.next_line(reader, writer)? {
            Piece::Line(line) => {
                self.session
                    .answer_line(line.as_slice(), kit, book, hashing, writer)?;
                Ok(true)
            }
            Piece::Last(line) if line.is_empty() => Ok(false),
            Piece::Last(line) => {
                self.session
                    .answer_line(line.as_slice(), kit, book, hashing, writer)?;
                Ok(false)
            }
        }
    }
}

/// How the run ends that stops at the line of this number. Of a bad line it says so.
fn stop_at<W: Write>(alloc: Global, number: u64, stop: Stop, writer: &mut W) -> RunStatus
    ensures stops { StopsAt (W.contents writer.old) (W.contents writer.new) number stop result }
    ensures whole { result ≢ RunStatus.WriteFailed → WritesLines (W.contents writer.old) (W.contents writer.new) }
{
    match stop {
        Stop::BadLine(why) => refuse(alloc, number, why, writer),
        stop => stop.status(number),
    }
}

/// Says that the line of this number is bad, which ends the run.
fn refuse<W: Write>(alloc: Global, number: u64, why: Mistake, writer: &mut W) -> RunStatus
    ensures refuses { Refuses (W.contents writer.old) (W.contents writer.new) number why result }
    ensures whole { result ≢ RunStatus.WriteFailed → WritesLines (W.contents writer.old) (W.contents writer.new) }
{
    match put_line(alloc, &BadLine(number), writer) {
        Ok(()) => RunStatus::BadLine(number, why),
        Err(halt) => Stop::from(halt).status(number),
    }
}
