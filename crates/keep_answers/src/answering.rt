ghost use Rattle.std.specs.Prelude.{◌≢◌, ◌≤◌, Err, length};
ghost use Rattle.keep_book.specs.Armed.{HasSums};
ghost use Rattle.keep_jobs.specs.Kits.{KitData, filters_of, kit_view};
ghost use Rattle.keep_lines.specs.Line.{longest_line};
ghost use Rattle.keep_answers.specs.Answering.{AnswersDue, AnswersLine, AnswersMeant};
ghost use Rattle.keep_answers.specs.Known.{Writes, WritesLines};
ghost use Rattle.keep_answers.specs.Meaning as meaning;
ghost use Rattle.keep_answers.specs.Meaning.{job_meant, meant_by};
ghost use Rattle.keep_answers.specs.State.{state_of};

use crate::answer_lists::{write_count, write_history, write_list, write_totals};
use crate::arming::arm;
use crate::halt::Halt;
use crate::hashing_first::hash_first;
use crate::meant::{Meant, Topic};
use crate::output::put_line;
use crate::raw_files::{added, dropped};
use crate::reply_text::{
    write_armed, write_audit, write_committed, write_outcome, write_reply, write_restore,
    write_taken,
};
use crate::session::Session;
use keep_book::Book;
use keep_hashing::Hashing;
use keep_jobs::{Kit, resolve};
use keep_lines::{Command, JobLine, LineError, Revision, parse};
use keep_names::{FileName, Id, Kind};
use keep_plan::PlanError;
use keep_read::{audit_with, restore};
use keep_replies::{Compared, Noted};
use keep_repo::Repo;
use keep_shelf::Shelf;
use std::io::Write;

impl Session {
    /// Does what the line asks for, and writes the answer: whole lines, none for a line that is
    /// passed over. A failure may come after some of the lines. Where there is much to hash, `hashing` does it.
    pub fn answer_line<S: Shelf, H: Hashing + Copy, W: Write>(
        &mut self,
        line: &[u8],
        kit: &mut Kit,
        book: &mut Book<S>,
        hashing: H,
        writer: &mut W,
    ) -> Result<(), Halt>
        requires line { length line.now ≤ longest_line }
        requires sums { HasSums book.old }
        ensures answers { Writes (W.contents writer.old) (W.contents writer.new) (λ text.
            AnswersLine (state_of (kit_view kit.old) self.old book.old) line.now text result
            (state_of (kit_view kit.new) self.new book.new)) }
        ensures whole { result ≢ Err Halt.WriteFailed → WritesLines (W.contents writer.old) (W.contents writer.new) }
        ensures sums { HasSums book.new }
    {
        match parse(self.alloc, line)? {
            Some(command) => {
                hash_first(hashing, book, &command);
                self.answer(command, kit, book, hashing, writer)
            }
            None => Ok(()),
        }
    }

    fn answer<S: Shelf, H: Hashing + Copy, W: Write>(
        &mut self,
        command: Command<'_>,
        kit: &mut Kit,
        book: &mut Book<S>,
        hashing: H,
        writer: &mut W,
    ) -> Result<(), Halt>
        requires { HasSums book.old }
        ensures answers { Writes (W.contents writer.old) (W.contents writer.new) (λ text.
            AnswersDue (state_of (kit_view kit.old) self.old book.old)
            (meant_by (state_of (kit_view kit.old) self.old book.old) command.entry) text result
            (state_of (kit_view kit.new) self.new book.new)) }
        ensures whole { result ≢ Err Halt.WriteFailed → WritesLines (W.contents writer.old) (W.contents writer.new) }
        ensures sums { HasSums book.new }
    {
        match self.resolve(command, kit, book) {
            Ok(Meant::Job(line)) => self.do_job(line, kit, book, writer),
            Ok(Meant::Add { kind, bytes }) => self.add(kind, bytes, book, writer),
            Ok(Meant::Drop(name)) => self.drop(name, book, writer),
            Ok(Meant::Revision(revision)) => self.revise(revision, book, writer),
            Ok(Meant::Cascade(number)) => self.cascade(number, book, writer),
            Ok(Meant::Tell(topic)) => self.answer_topic(topic, book, hashing, writer),
            Ok(Meant::Compare(name, noted)) => self.compare(name, noted, book, writer),
            Ok(Meant::Restore(snapshot)) => self.restore(snapshot, book, writer),
            Ok(Meant::Note(name)) => self.note(name, book, writer),
            Ok(Meant::Arm(name, place)) => {
                let outcome = arm(kit, book, place);
                write_armed(self.alloc, name, outcome, writer)
            }
            Err(why) => Err(Halt::BadLine(why)),
        }
    }

    /// Plans the job that the line asks for on the present state, and commits it at once.
    fn do_job<S: Shelf, W: Write>(
        &mut self,
        line: JobLine,
        kit: &Kit,
        book: &mut Book<S>,
        writer: &mut W,
    ) -> Result<(), Halt>
        requires { HasSums book.old }
        ensures answers { Writes (W.contents writer.old) (W.contents writer.new) (λ text.
            AnswersDue (state_of (kit_view kit.now) self.old book.old) (job_meant (filters_of kit.now) line) text result
            (state_of (kit_view kit.now) self.new book.new)) }
        ensures whole { result ≢ Err Halt.WriteFailed → WritesLines (W.contents writer.old) (W.contents writer.new) }
        ensures sums { HasSums book.new }
    {
        let alloc = self.alloc;
        match resolve(alloc, kit, line) {
            Ok(job) => {
                let outcome = self.perform(&job, book);
                self.require_sure(book)?;
                write_outcome(alloc, outcome, writer)
            }
            Err(LineError::Bad(why)) => Err(Halt::BadLine(why)),
            Err(LineError::Memory) => write_outcome(alloc, Err(PlanError::Memory), writer),
        }
    }

    /// Adds a file by itself.
    fn add<S: Shelf, W: Write>(
        &mut self,
        kind: Kind,
        bytes: Vec<u8>,
        book: &mut Book<S>,
        writer: &mut W,
    ) -> Result<(), Halt>
        requires { HasSums book.old }
        ensures answers { (kit : KitData) → Writes (W.contents writer.old) (W.contents writer.new) (λ text.
            AnswersMeant (state_of kit self.old book.old) (meaning.Add kind bytes.items) text result
            (state_of kit self.new book.new)) }
        ensures whole { result ≢ Err Halt.WriteFailed → WritesLines (W.contents writer.old) (W.contents writer.new) }
        ensures sums { HasSums book.new }
    {
        let change = added(self.alloc, kind, bytes)?;
        let outcome = self.commit_now(book, change);
        self.require_sure(book)?;
        write_committed(self.alloc, outcome, writer)
    }

    /// Drops a file by itself.
    fn drop<S: Shelf, W: Write>(
        &mut self,
        name: FileName,
        book: &mut Book<S>,
        writer: &mut W,
    ) -> Result<(), Halt>
        requires { HasSums book.old }
        ensures answers { (kit : KitData) → Writes (W.contents writer.old) (W.contents writer.new) (λ text.
            AnswersMeant (state_of kit self.old book.old) (meaning.Drop name) text result
            (state_of kit self.new book.new)) }
        ensures whole { result ≢ Err Halt.WriteFailed → WritesLines (W.contents writer.old) (W.contents writer.new) }
        ensures sums { HasSums book.new }
    {
        let change = dropped(self.alloc, book.ledger().live(), name)?;
        let outcome = self.commit_now(book, change);
        self.require_sure(book)?;
        write_committed(self.alloc, outcome, writer)
    }

    /// Asks the book about an earlier change.
    fn revise<S: Shelf, W: Write>(
        &mut self,
        revision: Revision,
        book: &mut Book<S>,
        writer: &mut W,
    ) -> Result<(), Halt>
        requires { HasSums book.old }
        ensures answers { (kit : KitData) → Writes (W.contents writer.old) (W.contents writer.new) (λ text.
            AnswersMeant (state_of kit self.old book.old) (meaning.Revise revision) text result
            (state_of kit self.new book.new)) }
        ensures whole { result ≢ Err Halt.WriteFailed → WritesLines (W.contents writer.old) (W.contents writer.new) }
        ensures sums { HasSums book.new }
    {
        let reply = self.ask(book, revision.request());
        self.require_sure(book)?;
        write_reply(self.alloc, reply, writer)
    }

    /// Takes the change back with all that leans on it.
    fn cascade<S: Shelf, W: Write>(
        &mut self,
        number: u64,
        book: &mut Book<S>,
        writer: &mut W,
    ) -> Result<(), Halt>
        requires { HasSums book.old }
        ensures answers { (kit : KitData) → Writes (W.contents writer.old) (W.contents writer.new) (λ text.
            AnswersMeant (state_of kit self.old book.old) (meaning.Cascade number) text result
            (state_of kit self.new book.new)) }
        ensures whole { result ≢ Err Halt.WriteFailed → WritesLines (W.contents writer.old) (W.contents writer.new) }
        ensures sums { HasSums book.new }
    {
        let taken = self.take_back(book, number);
        self.require_sure(book)?;
        write_taken(self.alloc, taken, writer)
    }

    /// Tells what is asked for.
    fn answer_topic<S: Shelf, H: Hashing + Copy, W: Write>(
        &self,
        topic: Topic,
        book: &Book<S>,
        mut hashing: H,
        writer: &mut W,
    ) -> Result<(), Halt>
        requires { HasSums book.now }
        ensures answers { (kit : KitData) → Writes (W.contents writer.old) (W.contents writer.new) (λ text.
            AnswersMeant (state_of kit self.now book.now) (meaning.Tell topic) text result
            (state_of kit self.now book.now)) }
        ensures whole { result ≢ Err Halt.WriteFailed → WritesLines (W.contents writer.old) (W.contents writer.new) }
    {
        let alloc = self.alloc;
        match topic {
            Topic::List => write_list(alloc, book.ledger().live(), writer),
            Topic::Count => write_count(alloc, book.ledger().live(), writer),
            Topic::History => write_history(alloc, book.ledger().history(), writer),
            Topic::Totals => write_totals(alloc, book.totals(), writer),
            Topic::Audit => {
                let found = audit_with(alloc, &book.ledger().view(), &mut hashing);
                write_audit(alloc, found, writer)
            }
        }
    }

    /// Tells whether the repository is as the noted one.
    fn compare<S: Shelf, W: Write>(
        &self,
        name: &str,
        noted: &Repo,
        book: &Book<S>,
        writer: &mut W,
    ) -> Result<(), Halt>
        ensures answers { (kit : KitData) → Writes (W.contents writer.old) (W.contents writer.new) (λ text.
            AnswersMeant (state_of kit self.now book.now) (meaning.Compare name.entry.now noted.now) text result
            (state_of kit self.now book.now)) }
        ensures whole { result ≢ Err Halt.WriteFailed → WritesLines (W.contents writer.old) (W.contents writer.new) }
    {
        let same = book.ledger().live().same_as(noted);
        put_line(self.alloc, &Compared { name, same }, writer)
    }

    /// Tells the files of the snapshot.
    fn restore<S: Shelf, W: Write>(
        &self,
        snapshot: Id,
        book: &Book<S>,
        writer: &mut W,
    ) -> Result<(), Halt>
        ensures answers { (kit : KitData) → Writes (W.contents writer.old) (W.contents writer.new) (λ text.
            AnswersMeant (state_of kit self.now book.now) (meaning.Restore snapshot) text result
            (state_of kit self.now book.now)) }
        ensures whole { result ≢ Err Halt.WriteFailed → WritesLines (W.contents writer.old) (W.contents writer.new) }
    {
        let outcome = restore(self.alloc, &book.ledger().view(), snapshot);
        write_restore(self.alloc, outcome, writer)
    }

    /// Notes the repository under the name.
    fn note<S: Shelf, W: Write>(
        &mut self,
        name: &str,
        book: &Book<S>,
        writer: &mut W,
    ) -> Result<(), Halt>
        ensures answers { (kit : KitData) → Writes (W.contents writer.old) (W.contents writer.new) (λ text.
            AnswersMeant (state_of kit self.old book.now) (meaning.Note name.entry.now) text result
            (state_of kit self.new book.now)) }
        ensures whole { result ≢ Err Halt.WriteFailed → WritesLines (W.contents writer.old) (W.contents writer.new) }
    {
        let copy = book.ledger().repo()?;
        self.notes.insert(name, copy)?;
        put_line(self.alloc, &Noted(name), writer)
    }
}
