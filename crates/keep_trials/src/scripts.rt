use crate::readers::{Endless, EndlessLine, Interrupted, LineByLine, Slow};
use crate::writers::{ByLine, Flushed, Narrow};
use keep_jobs::{Cut, Kit, Settings};
use keep_lines::Mistake;
use keep_script::{RunStatus, Setup, run};
use keep_shelf::{MemoryShelf, Shelf};
use std::alloc::Global;
use std::io::{Read, Write};
use std::test::Fail;

/// How the run of what the reader gives ends, over a shelf in memory with nothing on it.
fn end_of<R: Read, W: Write>(alloc: Global, reader: &mut R, writer: &mut W) -> RunStatus {
    end_over(alloc, MemoryShelf::new(alloc), reader, writer)
}

/// How the run of what the reader gives ends over this shelf. Nothing is stored, and files are cut after a mebibyte.
pub fn end_over<S: Shelf, R: Read, W: Write>(
    alloc: Global,
    shelf: S,
    reader: &mut R,
    writer: &mut W,
) -> RunStatus {
    let mut nothing_stored = Kit {
        filters: Vec::new(alloc),
        vetoes: Vec::new(alloc),
        watches: Vec::new(alloc),
    };
    let setup = Setup {
        alloc,
        settings: Settings {
            cut: Cut::after(1_048_576),
            now: 1_000,
        },
    };
    match run(setup, shelf, &mut nothing_stored, reader, writer) {
        Ok((status, _)) => status,
        Err(given) => RunStatus::from(given.error),
    }
}

/// A script whose answers to `list` and `history` have several lines.
const LISTING: &str = "add pack -\nadd index 61\nlist\nundo 1\nhistory";

const LISTED: &str = "ok 1 at 1 +1 -0 *0 ~0\n\
     ok 2 at 2 +1 -0 *0 ~0\n\
     pack e3b0c44298fc1c149afbf4c8996fb92427ae41e4649b934ca495991b7852b855 0\n\
     index ca978112ca1bbdcafac231b39a23dc4da786eff8147c4e72b9807785afee48bb 1\n\
     files 2 marks 0\n\
     ok 1 at 3\n\
     1 commit 1\n\
     2 commit 2\n\
     3 undo 1\n";

#[test]
fn endless_scripts_are_given_up(rt: HostRuntime) {
    let mut writer = Vec::new(rt.alloc());
    let ended = end_of(rt.alloc(), &mut Endless, &mut writer);
    assert!(rt; ended == RunStatus::ScriptTooLong);
    assert!(rt; writer.is_empty());
}

/// Scripts with each kind of answer twice, what is answered, and how the run ends.
const SCRIPTS: [(&str, &str, RunStatus); 9] = [
    (LISTING, LISTED, RunStatus::Done),
    (
        "add snapshot 61\nadd index 62\nlist\nhistory\n",
        "ok 1 at 1 +1 -0 *0 ~0\n\
         ok 2 at 2 +1 -0 *0 ~0\n\
         index 3e23e8160039594a33894f6564e1b1348bbd7a0088d42c4acb73eeaed59c009d 1\n\
         snapshot ca978112ca1bbdcafac231b39a23dc4da786eff8147c4e72b9807785afee48bb 1\n\
         files 2 marks 0\n\
         1 commit 1\n\
         2 commit 2\n",
        RunStatus::Done,
    ),
    ("", "", RunStatus::Done),
    ("\n# a comment\ncount", "files 0 marks 0\n", RunStatus::Done),
    (
        "# nothing\tto do",
        "bad line 1\n",
        RunStatus::BadLine(1, Mistake::NotText),
    ),
    (
        "add index 61\ndrop index @1\nundo 1\nundo 2\nundo 1\nredo 2\nempty 1\n\ncount\n",
        "ok 1 at 1 +1 -0 *0 ~0\n\
         ok 2 at 2 +0 -1 *0 ~0\n\
         no LeanedOn 2\n\
         ok 2 at 3\n\
         ok 1 at 4\n\
         no Blocked 2\n\
         ok 1 at 5\n\
         files 0 marks 0\n",
        RunStatus::Done,
    ),
    (
        "note n\nadd index 61\nsame n\nnote n\nsame n\nundo 3\nundo 01",
        "noted n\nok 1 at 1 +1 -0 *0 ~0\nsame n no\nnoted n\nsame n yes\nno Unknown\nbad line 7\n",
        RunStatus::BadLine(7, Mistake::NotNumber),
    ),
    (
        "audit\n\
         restore ca978112ca1bbdcafac231b39a23dc4da786eff8147c4e72b9807785afee48bb\n\
         add snapshot 61\n\
         restore @1\n\
         audit",
        "audit 0\n\
         no NoSnapshot\n\
         ok 1 at 1 +1 -0 *0 ~0\n\
         no NotJson snapshot ca978112ca1bbdcafac231b39a23dc4da786eff8147c4e72b9807785afee48bb\n\
         unreadable snapshot ca978112ca1bbdcafac231b39a23dc4da786eff8147c4e72b9807785afee48bb 2\n\
         audit 1\n",
        RunStatus::Done,
    ),
    (
        "backup web 2024-01-01T10:00:00Z /a=68656c6c6f\n\
         backup web 2024-01-01T11:00:00Z /a=68656c6c6f /b=-\n\
         restore @1\nrestore @2\ncount",
        "ok 1 at 1 +4 -0 *0 ~0\n\
         ok 2 at 2 +3 -0 *0 ~0\n\
         /a 68656c6c6f\n\
         restored 1 skipped 0\n\
         /a 68656c6c6f\n\
         /b -\n\
         restored 2 skipped 0\n\
         files 7 marks 0\n",
        RunStatus::Done,
    ),
];

#[test]
fn single_bytes_are_read_on(rt: HostRuntime) {
    let alloc = rt.alloc();
    for (script, answers, status) in SCRIPTS {
        let mut slow = Slow {
            bytes: script.as_bytes(),
            interrupted: false,
            fails: false,
        };
        let mut writer = Vec::new(alloc);
        let ended = end_of(alloc, &mut slow, &mut writer);
        assert!(rt; ended == status, "before {answers}");
        assert!(rt; writer.as_slice() == answers.as_bytes(), "not {answers}");
    }
}

#[test]
fn a_line_of_single_bytes_is_read_on(rt: HostRuntime) -> Result<(), Fail> {
    let alloc = rt.alloc();
    let mut script = vec![in alloc; b'#'; 120_000]?;
    script.extend_from_slice(b"\ncount\n")?;
    let mut slow = Slow {
        bytes: script.as_slice(),
        interrupted: false,
        fails: false,
    };
    let mut writer = Vec::new(alloc);
    let ended = end_of(alloc, &mut slow, &mut writer);
    assert!(rt; ended == RunStatus::Done);
    assert!(rt; writer.as_slice() == b"files 0 marks 0\n".as_slice());
    Ok(())
}

#[test]
fn a_line_without_end_is_a_bad_one(rt: HostRuntime) {
    let mut writer = Vec::new(rt.alloc());
    let ended = end_of(rt.alloc(), &mut EndlessLine, &mut writer);
    assert!(rt; ended == RunStatus::BadLine(1, Mistake::TooLong));
    assert!(rt; writer.as_slice() == b"bad line 1\n".as_slice());
}

#[test]
fn a_reader_that_is_always_interrupted_is_given_up(rt: HostRuntime) {
    let mut writer = Vec::new(rt.alloc());
    let ended = end_of(rt.alloc(), &mut Interrupted, &mut writer);
    assert!(rt; ended == RunStatus::ReadFailed);
    assert!(rt; writer.is_empty());
}

/// A script of two lines, of which the last lacks its end, and its answers.
const TWO_ADDS: &str = "add index 61\nadd index 62";

const TWO_ADDED: &str = "ok 1 at 1 +1 -0 *0 ~0\nok 2 at 2 +1 -0 *0 ~0\n";

/// The reader fails behind each byte. The line that was whole before is answered.
#[test]
fn a_failed_read_ends_the_run(rt: HostRuntime) {
    let alloc = rt.alloc();
    for read in 0..=TWO_ADDS.len() {
        let mut failing = Slow {
            bytes: &TWO_ADDS.as_bytes()[..read],
            interrupted: false,
            fails: true,
        };
        let mut writer = Vec::new(alloc);
        let ended = end_of(alloc, &mut failing, &mut writer);
        let answers = if read <= "add index 61".len() {
            ""
        } else {
            "ok 1 at 1 +1 -0 *0 ~0\n"
        };
        assert!(rt; ended == RunStatus::ReadFailed, "after {read}");
        assert!(rt; writer.as_slice() == answers.as_bytes(), "after {read}");
    }
}

/// The writer has room for each number of bytes. Listings may break off in the midst of a line.
#[test]
fn a_failed_write_ends_the_run(rt: HostRuntime) {
    let alloc = rt.alloc();
    for (script, answers) in [(TWO_ADDS, TWO_ADDED), (LISTING, LISTED)] {
        for room in 0..=answers.len() {
            let mut writer = Narrow {
                held: Vec::new(alloc),
                room,
                interrupted: false,
            };
            let ended = end_of(alloc, &mut script.as_bytes(), &mut writer);
            let status = if room < answers.len() {
                RunStatus::WriteFailed
            } else {
                RunStatus::Done
            };
            assert!(rt; ended == status, "at {room}");
            assert!(rt;
                writer.held.as_slice() == &answers.as_bytes()[..room],
                "at {room}"
            );
        }
    }
}

#[test]
fn lines_are_written_one_by_one(rt: HostRuntime) {
    let alloc = rt.alloc();
    let mut writer = ByLine {
        held: Vec::new(alloc),
    };
    let ended = end_of(alloc, &mut LISTING.as_bytes(), &mut writer);
    assert!(rt; ended == RunStatus::Done);
    assert!(rt; writer.held.as_slice() == LISTED.as_bytes());
}

/// A script of three lines, of which the last lacks its end.
const THREE_LINES: &str = "add index 61\ncount\nundo 1";

/// One whose last line is bad, and has its end.
const BAD_AT_LAST: &str = "add index 61\ncount\nhelp\n";

#[test]
fn each_answer_is_handed_on_before_the_next_read(rt: HostRuntime) {
    let alloc = rt.alloc();
    for (script, flushes, lengths, status) in [
        (
            THREE_LINES,
            99,
            [0, 22, 38, 38, 48].as_slice(),
            RunStatus::Done,
        ),
        (THREE_LINES, 4, &[0, 22, 38, 38], RunStatus::WriteFailed),
        (THREE_LINES, 1, &[0], RunStatus::WriteFailed),
        (
            BAD_AT_LAST,
            99,
            &[0, 22, 38, 49],
            RunStatus::BadLine(3, Mistake::NoCommand),
        ),
        (BAD_AT_LAST, 3, &[0, 22, 38], RunStatus::WriteFailed),
    ] {
        let mut writer = Flushed {
            held: Vec::new(alloc),
            room: 1000,
            lengths: Vec::new(alloc),
            flushes,
        };
        let mut reader = LineByLine {
            bytes: script.as_bytes(),
        };
        let ended = end_of(alloc, &mut reader, &mut writer);
        assert!(rt; ended == status, "at {flushes}");
        assert!(rt; writer.lengths.as_slice() == lengths, "at {flushes}");
    }
}
