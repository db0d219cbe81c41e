ghost use Rattle.std.specs.Prelude.{◌≡◌, ◌↔◌, IsTrue, OnOk};
ghost use Rattle.std.specs.Io.KnownBytes.{Appends};
ghost use Rattle.keep_command.specs.Ending.{advice_on, code_of, told_text};
ghost use Rattle.keep_script.specs.declared.status.RunStatus.TheVariants as the_status;

use keep_folder::FolderError;
use keep_opening::OpenError;
use keep_operators::NoCrew;
use keep_options::BadOptions;
use keep_script::RunStatus;
use std::alloc::AllocError;
use std::fmt;
use std::io::{self, Write};

const USAGE: &str =
    "usage: keepd [--cut N] [--now TIME] [--host H] [--tagged T] [--drops N] [--folder DIR] [--crew N] < SCRIPT";

/// What to do where what stands on a shelf can't be read.
const COPY: &str = "put journal, trash and files back from one copy";

/// Says on standard error why the program ended, unless each line was answered and the shelf never failed. Answers the
/// exit status, which is the same where that can't be written, and whether it could.
pub fn report_ending<E: Write>(ending: Ending<'_>, errors: &mut E) -> (u8, io::Result<()>)
    ensures code { result.0 ≡ code_of ending.entry }
    ensures told { OnOk result.1 (Appends (E.contents errors.old) (E.contents errors.new) (told_text ending.entry)) }
{
    let code = ending.code();
    if ending.is_done() {
        return (code, Ok(()));
    }
    (code, writeln!(errors, "{ending}"))
}

/// How the program ended. It prints as the line on standard error that says why.
#[derive(Drop)]
pub enum Ending<'a> {
    /// The script was run, to this end.
    Ran(RunStatus),
    /// The words behind the program's name aren't its options. The bad one is named, but where one
    /// isn't UTF-8 none is.
    BadOptions(Option<&'a str>),
    /// The folder isn't opened, for this cause. Nothing was read or written.
    NoFolder(FolderError),
    /// What stands there can't be read: this is the number that `BadEntry` has, and what is wrong there, each thing
    /// behind a semicolon. Nothing was read or written.
    Damaged(u64, String),
    /// The script was answered, and the crew was refused behind it, for this cause.
    NoCrew(NoCrew),
}

impl Ending<'_> {
    ghost use Rattle.keep_command.specs.Ending.{code_of};
    ghost use Rattle.keep_command.specs.declared.ending.Ending.TheVariants as the_ending;

    /// The exit status: 0 where each line was answered and the shelf never failed, 1 where it did or the run failed, 2
    /// where a line isn't of the language or the words aren't options.
    pub fn code(&self) -> u8
        ensures { result ≡ code_of self.now }
    {
        match self {
            Ending::Ran(RunStatus::Done) => 0,
            Ending::Ran(RunStatus::ReadFailed | RunStatus::ScriptTooLong) => 1,
            Ending::Ran(RunStatus::WriteFailed | RunStatus::NoMemory) => 1,
            Ending::Ran(RunStatus::Faulted | RunStatus::Untold | RunStatus::NotOpened(_)) => 1,
            Ending::NoFolder(_) | Ending::Damaged(_, _) | Ending::NoCrew(_) => 1,
            Ending::Ran(RunStatus::BadLine(_, _)) | Ending::BadOptions(_) => 2,
        }
    }

    /// Whether each line was answered and the shelf never failed, so that there is nothing to say.
    pub fn is_done(&self) -> bool
        ensures { IsTrue result ↔ (self.now ≡ the_ending.Ran the_status.Done) }
    {
        matches!(self, Ending::Ran(RunStatus::Done))
    }
}

impl From<BadOptions> for Ending<'_> {
    ghost use Rattle.keep_command.specs.Ending.{ending_of};

    ghost from_gives = { λ error ending. ending ≡ ending_of error };

    fn from(error: BadOptions) -> Self {
        match error {
            BadOptions::Refused => Ending::BadOptions(None),
            BadOptions::Memory => Ending::Ran(RunStatus::NoMemory),
        }
    }
}

impl From<AllocError> for Ending<'_> {
    ghost use Rattle.std.specs.Prelude.{◌≡◌};
    ghost use Rattle.keep_script.specs.declared.status.RunStatus.TheVariants.{NoMemory};
    ghost use Rattle.keep_command.specs.declared.ending.Ending.TheVariants.{Ran};

    ghost from_gives = { λ _ ending. ending ≡ Ran NoMemory };

    fn from(_error: AllocError) -> Self {
        Ending::Ran(RunStatus::NoMemory)
    }
}

impl From<FolderError> for Ending<'_> {
    ghost use Rattle.keep_command.specs.Ending.{ending_unopened};

    ghost from_gives = { λ error ending. ending ≡ ending_unopened error };

    fn from(error: FolderError) -> Self {
        match error {
            FolderError::Memory => Ending::Ran(RunStatus::NoMemory),
            error => Ending::NoFolder(error),
        }
    }
}

impl From<NoCrew> for Ending<'_> {
    ghost use Rattle.keep_command.specs.Ending.{ending_uncrewed};

    ghost from_gives = { λ error ending. ending ≡ ending_uncrewed error };

    fn from(error: NoCrew) -> Self {
        match error {
            NoCrew::Memory => Ending::Ran(RunStatus::NoMemory),
            NoCrew::NoPass => Ending::NoCrew(NoCrew::NoPass),
        }
    }
}

impl fmt::Display for Ending<'_> {
    ghost use Rattle.std.specs.Prelude.{Some};
    ghost use Rattle.keep_command.specs.Ending.{ending_text};

    ghost output = { λ ending. Some (ending_text ending) };

    fn fmt<W: fmt::Write>(&self, f: &mut fmt::Formatter<W>) -> fmt::Result {
        match self {
            Ending::Ran(RunStatus::Done) => f.write_str("keepd: done"),
            Ending::Ran(RunStatus::Faulted) => f.write_str("keepd: the shelf failed"),
            Ending::Ran(RunStatus::BadLine(number, why)) => write!(
                f,
                "keepd: line {number}: {why}"
            ),
            Ending::Ran(RunStatus::ReadFailed) => f.write_str("keepd: cannot read the script"),
            Ending::Ran(RunStatus::ScriptTooLong) => {
                f.write_str("keepd: the script has more than 67,108,863 bytes")
            }
            Ending::Ran(RunStatus::WriteFailed) => f.write_str("keepd: cannot write the answers"),
            Ending::Ran(RunStatus::NoMemory) => f.write_str("keepd: no memory"),
            Ending::Ran(RunStatus::Untold) => f.write_str("keepd: the shelf can't be told"),
            Ending::Ran(RunStatus::NotOpened(error)) => {
                write!(f, "keepd: cannot open: {error}; {}", advice_on(error))
            }
            Ending::Damaged(number, damage) => {
                write!(f, "keepd: cannot open: BadEntry {number}{damage}; {COPY}")
            }
            Ending::NoFolder(FolderError::BadConfig) => {
                f.write_str(
                    "keepd: cannot open: BadConfig; name a folder with the config of a repository",
                )
            }
            Ending::NoFolder(FolderError::Locked) => {
                f.write_str(
                    "keepd: cannot open: Locked; wait for the end of the other run on this folder",
                )
            }
            Ending::NoFolder(FolderError::Fault(cause)) => {
                write!(
                    f,
                    "keepd: cannot open: Fault: {cause}; see that all in it can be read"
                )
            }
            Ending::NoFolder(FolderError::Memory) => f.write_str("keepd: no memory"),
            Ending::NoCrew(NoCrew::NoPass) => {
                f.write_str("keepd: cannot open: NoPass; run it with fewer operators")
            }
            Ending::NoCrew(NoCrew::Memory) => f.write_str("keepd: no memory"),
            Ending::BadOptions(None) => write!(f, "keepd: bad options; {USAGE}"),
            Ending::BadOptions(Some(word)) => write!(f, "keepd: bad options: {word}; {USAGE}"),
        }
    }
}

/// What to do where a shelf isn't opened for this cause.
fn advice_on(error: &OpenError) -> &'static str
    ensures { result.now ≡ advice_on error.now }
{
    match error {
        OpenError::BadEntry(_) => COPY,
        OpenError::Fault => "make room, and see that all in it can be read and written",
        OpenError::Memory => "run it with more memory",
    }
}
