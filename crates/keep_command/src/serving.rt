ghost use Rattle.std.specs.Prelude.{◌≡◌, ◌≢◌, ◌≤◌, ◌↔◌, IfOk, IsTrue, string_bytes, ℕ};
ghost use Rattle.keep_book.specs.Armed.{HasSums, hooks_of, on_shelf};
ghost use Rattle.keep_opening.specs.declared.open_error.OpenError.TheVariants as the_cause;
ghost use Rattle.keep_answers.specs.Known.{WritesLines};
ghost use Rattle.keep_script.specs.Begun.{begun_over};
ghost use Rattle.keep_script.specs.Run.{Ends};
ghost use Rattle.keep_script.specs.declared.status.RunStatus.{RunStatus};
ghost use Rattle.keep_options.specs.Option.{options_view};
ghost use Rattle.keep_command.specs.Damage.{IsRefusedSo, SaysDamage};
ghost use Rattle.keep_command.specs.Following.{Crews, EndsOver, EndsWith, Follows, IsCrewDue, Serves};
ghost use Rattle.keep_command.specs.NamedShelf.{shelved_of};
ghost use Rattle.keep_command.specs.Running.{KeepsLines, settings_of};
ghost use Rattle.keep_command.specs.Stored.{stored_view};

use crate::crew::Crew;
use crate::ending::Ending;
use crate::named_shelf::NamedShelf;
use crate::report::{Report, report_crew};
use crate::shelves::Shelves;
use crate::stored_questions::Stored;
use crate::terms::Terms;
use crate::unopened::Unopened;
use keep_book::Book;
use keep_damage::{damage_on, report};
use keep_jobs::Kit;
use keep_ledger::NotOpened;
use keep_opening::OpenError;
use keep_script::{RunStatus, run_on};
use keep_shelf::Shelf;
use std::alloc::Global;
use std::io::{Read, Write};

/// Answers the script over the shelf that the options name, with what is stored for it, and has the crew work that they ask for.
pub(crate) fn serve<'a, H, C, R, W>(
    shelves: &H,
    crew: &C,
    terms: Terms<'_>,
    stored: Stored,
    reader: &mut R,
    writer: &mut W,
) -> Ending<'a>
where
    H: Shelves,
    C: Crew,
    R: Read,
    W: Write,
    requires few { terms.options.crew ≤ 8 }
    ensures ends { EndsWith shelved_of (H.gives shelves.now) (H.takes shelves.now) (C.answers crew.now)
        (stored_view stored) (options_view terms.entry.options) (R.remaining reader.old) (R.remaining reader.new)
        (W.contents writer.old) (W.contents writer.new) result }
    ensures lines { KeepsLines (R.remaining reader.old) (W.contents writer.old) (W.contents writer.new) result }
{
    match shelves.open(terms.options.folder) {
        Ok(shelf) => serve_on(shelves, crew, terms, shelf, stored, reader, writer),
        Err(error) => Ending::from(error),
    }
}

/// Answers the script over the book that is opened of the shelf.
fn serve_on<'a, H, C, R, W>(
    shelves: &H,
    crew: &C,
    terms: Terms<'_>,
    shelf: NamedShelf<'_>,
    stored: Stored,
    reader: &mut R,
    writer: &mut W,
) -> Ending<'a>
where
    H: Shelves,
    C: Crew,
    R: Read,
    W: Write,
    requires few { terms.options.crew ≤ 8 }
    ensures ends { EndsOver (H.takes shelves.now) (C.answers crew.now) (shelved_of shelf.entry) (stored_view stored)
        (options_view terms.entry.options) (R.remaining reader.old) (R.remaining reader.new)
        (W.contents writer.old) (W.contents writer.new) result }
    ensures lines { KeepsLines (R.remaining reader.old) (W.contents writer.old) (W.contents writer.new) result }
{
    match Book::open_with(terms.alloc, shelf, &mut shelves.hashing()) {
        Ok(book) => serve_over(shelves, crew, terms, book, stored, reader, writer),
        Err(given) => {
            let NotOpened { mut shelf, error } = given;
            let ended = refused(terms.alloc, &mut shelf, error);
            shelves.leave_unopened(Unopened::new(shelf));
            ended
        }
    }
}

/// Answers the script over this book, and does what follows.
fn serve_over<'a, H, C, R, W>(
    shelves: &H,
    crew: &C,
    terms: Terms<'_>,
    mut book: Book<NamedShelf<'_>>,
    stored: Stored,
    reader: &mut R,
    writer: &mut W,
) -> Ending<'a>
where
    H: Shelves,
    C: Crew,
    R: Read,
    W: Write,
    requires sums { HasSums book }
    ensures serves { let options = options_view terms.entry.options in
        Serves (H.takes shelves.now) (C.answers crew.now)
        (Ends (begun_over (settings_of options) (stored_view stored) book.entry) (R.remaining reader.old)
        (R.remaining reader.new)) options (W.contents writer.old) (W.contents writer.new) result }
    ensures lines { KeepsLines (R.remaining reader.old) (W.contents writer.old) (W.contents writer.new) result }
{
    let Stored {
        vetoes,
        watches,
        filters,
    } = stored;
    let mut kit = Kit {
        filters,
        vetoes,
        watches,
    };
    let hashing = shelves.hashing();
    let status = run_on(terms.setup(), &mut book, &mut kit, hashing, reader, writer);
    follow(shelves, crew, terms, book, status, writer)
}

/// How the program ends where the shelf isn't opened: what is wrong there is said, where it can be found.
fn refused<'a, S: Shelf>(alloc: Global, shelf: &mut S, error: OpenError) -> Ending<'a>
    ensures told { IsRefusedSo (S.shelved shelf.old).content error result }
    ensures same { (S.shelved shelf.new).content ≡ (S.shelved shelf.old).content }
    ensures unread { ((k : ℕ) → error ≢ the_cause.BadEntry k) → S.shelved shelf.new ≡ S.shelved shelf.old }
{
    let OpenError::BadEntry(number) = error else {
        return Ending::Ran(RunStatus::from(error));
    };
    match damage_said(alloc, shelf) {
        Ok(damage) => Ending::Damaged(number, damage),
        Err(_) => Ending::Ran(RunStatus::NotOpened(OpenError::BadEntry(number))),
    }
}

/// What is wrong with what stands on the shelf, in words.
fn damage_said<S: Shelf>(alloc: Global, shelf: &mut S) -> Result<String, OpenError>
    ensures says { IfOk result (λ damage. SaysDamage (S.shelved shelf.old).content (string_bytes damage)) }
    ensures same { (S.shelved shelf.new).content ≡ (S.shelved shelf.old).content }
{
    let found = damage_on(alloc, shelf)?;
    let damage = report(alloc, found.as_slice())?;
    Ok(damage)
}

/// Has the crew work over the book, where it is due behind a run that ended so, and lets the book go where it isn't.
fn follow<'a, H, C, W>(
    shelves: &H,
    crew: &C,
    terms: Terms<'_>,
    book: Book<NamedShelf<'_>>,
    status: RunStatus,
    writer: &mut W,
) -> Ending<'a>
where
    H: Shelves,
    C: Crew,
    W: Write,
    requires sums { HasSums book }
    ensures follows { Follows (H.takes shelves.now) (C.answers crew.now) (options_view terms.entry.options)
        (on_shelf book.entry) (hooks_of book.entry) (W.contents writer.old) (W.contents writer.new) status result }
    ensures whole { result ≢ Ending.Ran RunStatus.WriteFailed →
        WritesLines (W.contents writer.old) (W.contents writer.new) }
{
    if is_crew_due(terms.options.crew, &status) {
        have_crew(shelves, crew, terms, book, writer)
    } else {
        shelves.leave(terms.options.folder, book);
        Ending::Ran(status)
    }
}

/// Whether a crew of this size is to work behind a run that ended so.
fn is_crew_due(size: u32, status: &RunStatus) -> bool
    ensures { IsTrue result ↔ IsCrewDue size status.now }
{
    matches!(status, RunStatus::Done) && size > 0
}

/// Has the crew work over the book, lets it go, and says what the crew did.
fn have_crew<'a, H, C, W>(
    shelves: &H,
    crew: &C,
    terms: Terms<'_>,
    book: Book<NamedShelf<'_>>,
    writer: &mut W,
) -> Ending<'a>
where
    H: Shelves,
    C: Crew,
    W: Write,
    requires one { 1 ≤ terms.options.crew }
    requires sums { HasSums book }
    ensures crews { let options = options_view terms.entry.options in Crews (H.takes shelves.now) (C.answers crew.now)
        (settings_of options) options.time options.crew (on_shelf book.entry) (hooks_of book.entry)
        (W.contents writer.old) (W.contents writer.new) result }
    ensures whole { result ≢ Ending.Ran RunStatus.WriteFailed →
        WritesLines (W.contents writer.old) (W.contents writer.new) }
{
    let (left, worked) = crew.work(book, terms.order());
    let is_sure = left.ledger().shelf().is_sure();
    shelves.leave(terms.options.folder, left);
    match worked {
        Ok(tally) => {
            let size = terms.options.crew;
            report_crew(terms.alloc, Report { size, tally }, is_sure, writer)
        }
        Err(refusal) => Ending::from(refusal),
    }
}
