ghost use Rattle.keep_book.specs.Armed.{HasSums};

use crate::answering::{answer_on, answer_over, setup};
use crate::shelves::case_failures::Plan;
use crate::shelves::damages::show_damages;
use crate::shelves::kit::run_with_kit;
use crate::shelves::logged::Logged;
use crate::shelves::recording::RecordingShelf;
use crate::shelves::shelf_case::{Case, Failing, Stops};
use crate::shelves::shelf_stop::Stop;
use crate::shelves::shown_calls::{Form, show_calls, show_line, show_script};
use crate::shelves::stops::show_stops;
use keep_book::Book;
use keep_jobs::Kit;
use keep_plan::Filter;
use keep_script::RunStatus;
use keep_shelf::{FailingShelf, MemoryShelf};
use std::alloc::Global;
use std::fmt::Write;
use std::mem;

/// The shelf that a case is run over.
pub(crate) type CaseShelf = Logged<FailingShelf<RecordingShelf<MemoryShelf>>>;

/// The plan by which no call fails.
pub(crate) const NO_FAILURE: Plan = Plan::Once(0);

/// How a line was answered.
#[derive(Drop)]
pub(crate) struct Answered<'a> {
    pub line: &'a str,
    pub text: Vec<u8>,
    pub status: RunStatus,
    /// How many calls were made before it.
    pub before: usize,
}

/// How many calls came before those that are counted, and how many of these there were.
#[derive(Clone, Copy)]
pub(crate) struct Counts {
    before: usize,
    counted: usize,
}

/// What the counts are where nothing is counted.
const NO_COUNTS: Counts = Counts {
    before: 0,
    counted: 0,
};

/// One run of a case.
#[derive(Clone, Copy)]
pub(crate) struct Trial<'a> {
    pub case: &'a Case,
    /// Which calls fail.
    plan: Plan,
    form: Form,
    /// Whether its lines are run as one script that opens the shelf.
    pub as_script: bool,
}

/// Writes the answer to the case.
pub(crate) fn answer(case: &Case, out: &mut String) -> Result<(), Stop> {
    if case.name.is_empty() {
        return Ok(());
    }
    writeln!(out, "= {}", case.name)?;
    match case.failing {
        Failing::Nothing => {
            show(case, NO_FAILURE, Form::Whole, out)?;
        }
        Failing::Chosen(plan) => {
            let mut unshown = String::new(case.alloc);
            let counts = show(case, NO_FAILURE, Form::Brief, &mut unshown)?;
            show(case, plan.after(counts.before), Form::Whole, out)?;
        }
        Failing::Each => show_each(case, out)?,
    }
    show_damages(case, out)
}

/// Runs the case, and then once more for each of its counted calls: that one fails alone, and then all that follow too.
fn show_each(case: &Case, out: &mut String) -> Result<(), Stop> {
    let counts = show(case, NO_FAILURE, Form::Whole, out)?;
    if case.is_script {
        return show_each_of_script(case, out);
    }
    for number in 0..counts.counted as u64 {
        for plan in [Plan::Once(number + 1), Plan::Onward(number + 1)] {
            writeln!(out, "{plan}")?;
            show(case, plan.after(counts.before), Form::Brief, out)?;
        }
    }
    Ok(())
}

/// Runs the script, and then once more for each of its calls. The run keeps the shelf, and a call that fails shows in
/// its answers, so the first number at which nothing shows is past the last call.
fn show_each_of_script(case: &Case, out: &mut String) -> Result<(), Stop> {
    let mut right = String::new(case.alloc);
    show(case, NO_FAILURE, Form::Brief, &mut right)?;
    for number in 1..u64::MAX {
        let mut text = String::new(case.alloc);
        show(case, Plan::Once(number), Form::Brief, &mut text)?;
        if text == right {
            break;
        }
        write!(out, "{}\n{text}", Plan::Once(number))?;
        writeln!(out, "{}", Plan::Onward(number))?;
        show(case, Plan::Onward(number), Form::Brief, out)?;
    }
    Ok(())
}

/// Runs the case where calls fail by the plan.
fn show(case: &Case, plan: Plan, form: Form, out: &mut String) -> Result<Counts, Stop> {
    let trial = Trial {
        case,
        plan,
        form,
        as_script: case.is_script,
    };
    match run_with_kit(trial, out) {
        Err(Stop::NotOpened(error)) => {
            writeln!(out, "{}", Stop::NotOpened(error))?;
            Ok(NO_COUNTS)
        }
        other => other,
    }
}

/// Makes the trial line by line, over one book. The lines can name these filters.
pub(crate) fn run_lines(
    trial: Trial<'_>,
    mut filters: Vec<Filter>,
    out: &mut String,
) -> Result<Counts, Stop> {
    let alloc = trial.case.alloc;
    let shelf = shelf_over(alloc, trial.case.shelf.copy()?, trial.plan)?;
    let mut book = Book::open(alloc, shelf)?;
    let opening = recording(&book).calls();
    let counts = answer_lines(trial.case, trial.form, &mut filters, &mut book, out)?;
    let first = match (trial.form, trial.case.stops) {
        (Form::Brief, _) | (Form::Whole, Stops::Nowhere) => return Ok(counts),
        (Form::Whole, Stops::AtEachCall) => 0,
        (Form::Whole, Stops::AfterOpening) => opening,
    };
    show_stops(alloc, recording(&book), first, out)?;
    Ok(counts)
}

/// Makes the trial with its lines as one script, whose run opens the shelf. They can name what is in the kit.
pub(crate) fn run_script(
    trial: Trial<'_>,
    kit: &mut Kit,
    out: &mut String,
) -> Result<Counts, Stop> {
    let alloc = trial.case.alloc;
    let shelf = shelf_over(alloc, trial.case.shelf.copy()?, trial.plan)?;
    let script = match trial.case.lines.first() {
        Some(script) => script.as_str(),
        None => "",
    };
    let mut text = Vec::new(alloc);
    let status = answer_over(setup(alloc), shelf, kit, script, &mut text);
    if let RunStatus::NotOpened(error) = status {
        return Err(Stop::NotOpened(error));
    }
    show_script(trial.form, script, &text, &status, out)?;
    Ok(NO_COUNTS)
}

/// A shelf with this on it, whose calls are noted and fail by the plan.
pub(crate) fn shelf_over(
    alloc: Global,
    content: MemoryShelf,
    plan: Plan,
) -> Result<CaseShelf, Stop> {
    let recording = RecordingShelf::over(alloc, content)?;
    Ok(Logged::new(alloc, plan.over(recording)))
}

/// The shelf in memory behind the book's, which can tell what each call left.
pub(crate) fn recording(book: &Book<CaseShelf>) -> &RecordingShelf<MemoryShelf> {
    book.ledger().shelf().inner().inner()
}

/// Answers the lines over the book that was opened.
fn answer_lines(
    case: &Case,
    form: Form,
    filters: &mut Vec<Filter>,
    book: &mut Book<CaseShelf>,
    out: &mut String,
) -> Result<Counts, Stop>
    requires { HasSums book.old }
{
    let opening = book.ledger().shelf().calls()?;
    let first_shown = match form {
        Form::Whole => {
            writeln!(out, "open")?;
            show_calls(case.alloc, opening, out)?;
            0
        }
        Form::Brief => case.counted,
    };
    let mut before = if case.counted == 0 { 0 } else { opening.len() };
    for (number, line) in case.lines.iter().enumerate() {
        if number + 1 == case.counted {
            before = calls(book)?;
        }
        let answered = answer_line(case.alloc, line.as_str(), filters, book)?;
        if number + 1 >= first_shown {
            show_line(case.alloc, form, &answered, book, out)?;
        }
    }
    Ok(Counts {
        before,
        counted: calls(book)?.saturating_sub(before),
    })
}

/// How many calls were made of the shelf.
fn calls(book: &Book<CaseShelf>) -> Result<usize, Stop> {
    Ok(book.ledger().shelf().calls()?.len())
}

/// Answers the line as a script of its own, which can name these filters.
fn answer_line<'a>(
    alloc: Global,
    line: &'a str,
    filters: &mut Vec<Filter>,
    book: &mut Book<CaseShelf>,
) -> Result<Answered<'a>, Stop>
    requires { HasSums book.old }
    ensures { HasSums book.new }
{
    let before = calls(book)?;
    let mut text = Vec::new(alloc);
    let mut kit = Kit {
        filters: mem::replace(filters, Vec::new(alloc)),
        vetoes: Vec::new(alloc),
        watches: Vec::new(alloc),
    };
    let status = answer_on(setup(alloc), book, &mut kit, line, &mut text);
    *filters = kit.filters;
    Ok(Answered {
        line,
        text,
        status,
        before,
    })
}
