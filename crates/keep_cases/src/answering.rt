ghost use Rattle.keep_book.specs.Armed.{HasSums};

use keep_book::Book;
use keep_hashing::OneByOne;
use keep_jobs::{Cut, Kit, Settings};
use keep_script::{RunStatus, Setup, run, run_on};
use keep_shelf::Shelf;
use std::alloc::Global;

/// After how many bytes files are cut.
const CUT: u32 = 1_048_576;
/// The moment of marks and sweeps.
const NOW: i64 = 1_000;

/// What each script goes by.
pub(crate) fn setup(alloc: Global) -> Setup {
    Setup {
        alloc,
        settings: Settings {
            cut: Cut::after(CUT),
            now: NOW,
        },
    }
}

/// Answers a script over this book.
pub(crate) fn answer_on<S: Shelf>(
    setup: Setup,
    book: &mut Book<S>,
    kit: &mut Kit,
    script: &str,
    text: &mut Vec<u8>,
) -> RunStatus
    requires { HasSums book.old }
    ensures { HasSums book.new }
{
    run_on(setup, book, kit, OneByOne, &mut script.as_bytes(), text)
}

/// Answers a script over the book that is opened of this shelf.
pub(crate) fn answer_over<S: Shelf>(
    setup: Setup,
    shelf: S,
    kit: &mut Kit,
    script: &str,
    text: &mut Vec<u8>,
) -> RunStatus {
    match run(setup, shelf, kit, &mut script.as_bytes(), text) {
        Ok((status, _)) => status,
        Err(given) => RunStatus::from(given.error),
    }
}
