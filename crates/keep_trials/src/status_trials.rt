use crate::readers::{Endless, Slow};
use crate::writers::Flushed;
use keep_command::{BadOptions, Ending, HostShelves, NoOperators, keepd};
use keep_hashing::OneByOne;
use keep_ledger::OpenError;
use keep_script::RunStatus;
use std::alloc::Global;
use std::process::Abort;
use std::test::Fail;

/// A writer that gives up, and what is answered and said then.
#[derive(Clone, Copy)]
struct Failure<'a> {
    /// How many bytes the writer takes.
    room: usize,
    /// How many flushes it lets pass.
    flushes: usize,
    answers: &'a str,
    /// What the program says of its end.
    cause: &'a str,
}

impl Failure<'_> {
    fn writer(&self, alloc: Global) -> Flushed {
        Flushed {
            held: Vec::new(alloc),
            room: self.room,
            lengths: Vec::new(alloc),
            flushes: self.flushes,
        }
    }

    /// The run that had this writer ended so.
    fn expect(&self, rt: &impl Abort, alloc: Global, ending: &Ending<'_>, writer: &Flushed) {
        assert_eq!(rt; ending.code(), 1, "before {}", self.cause);
        assert!(rt; !ending.is_done());
        assert!(rt;
            writer.held.as_slice() == self.answers.as_bytes(),
            "not {}",
            self.answers
        );
        let said = format!(in alloc; "{ending}").expect(rt, "memory");
        assert_eq!(rt; said.as_str(), self.cause);
    }
}

const ANSWER: &str = "files 0 marks 0\n";

#[test]
fn failures_give_their_status(rt: HostRuntime) {
    let alloc = rt.alloc();
    let mut broken = Slow {
        bytes: b"count\ncou",
        interrupted: false,
        fails: true,
    };
    let unread = Failure {
        room: 1000,
        flushes: 1000,
        answers: ANSWER,
        cause: "keepd: cannot read the script",
    };
    let mut writer = unread.writer(alloc);
    let shelves = HostShelves::new(&rt, OneByOne);
    let ending = keepd(alloc, &shelves, &NoOperators, &[], &mut broken, &mut writer);
    unread.expect(&rt, alloc, &ending, &writer);
    let too_long = Failure {
        room: 0,
        flushes: 5000,
        answers: "",
        cause: "keepd: the script has more than 67,108,863 bytes",
    };
    let mut writer = too_long.writer(alloc);
    let ending = keepd(
        alloc,
        &shelves,
        &NoOperators,
        &[],
        &mut Endless,
        &mut writer,
    );
    too_long.expect(&rt, alloc, &ending, &writer);
    for (room, flushes, answers) in [(9, 99, ""), (99, 2, ANSWER)] {
        let unwritten = Failure {
            room,
            flushes,
            answers,
            cause: "keepd: cannot write the answers",
        };
        let mut writer = unwritten.writer(alloc);
        let ending = keepd(
            alloc,
            &shelves,
            &NoOperators,
            &[],
            &mut b"count\n".as_slice(),
            &mut writer,
        );
        unwritten.expect(&rt, alloc, &ending, &writer);
    }
}

#[test]
fn unread_options_give_their_status(rt: HostRuntime) -> Result<(), Fail> {
    for (error, cause, code) in [
        (BadOptions::Memory, "keepd: no memory", 1),
        (
            BadOptions::Refused,
            "keepd: bad options; usage: keepd [--cut N] [--now TIME] [--host H] [--tagged T] [--drops N] [--folder DIR] [--crew N] < SCRIPT",
            2,
        ),
    ] {
        let ending = Ending::from(error);
        let said = format!(in rt.alloc(); "{ending}")?;
        assert_eq!(rt; ending.code(), code);
        assert_eq!(rt; said.as_str(), cause);
    }
    Ok(())
}

#[test]
fn shelves_that_fail_give_their_status(rt: HostRuntime) -> Result<(), Fail> {
    for (status, cause) in [
        (RunStatus::Faulted, "keepd: the shelf failed"),
        (
            RunStatus::NotOpened(OpenError::BadEntry(3)),
            "keepd: cannot open: BadEntry 3; put journal, trash and files back from one copy",
        ),
    ] {
        let ending = Ending::Ran(status);
        let said = format!(in rt.alloc(); "{ending}")?;
        assert_eq!(rt; ending.code(), 1);
        assert_eq!(rt; said.as_str(), cause);
    }
    Ok(())
}
