ghost use Rattle.std.specs.Prelude.{◌≡◌, ⊤};
ghost use Rattle.keep_run.specs.Status.{status_of};

use std::alloc::{AllocError, AllocFailed, Global};
use std::fmt;

/// Why a command wasn't done, or not whole.
#[derive(Drop)]
pub enum Failure {
    /// The words are bad, and that was said.
    BadWords,
    /// The words are bad, for this cause.
    Unmeant(String),
    /// It was refused, or failed, for this cause.
    Refused(String),
    /// It failed, and what there is to say was said.
    Told,
    /// It is done, but for some files that couldn't be read, which were named.
    Partly,
    /// Standard output can't be written.
    Unwritten,
    /// Memory ran out.
    Memory,
}

impl Failure {
    /// A refusal that says this.
    pub fn refused<D: fmt::Display>(alloc: Global, cause: &D) -> Failure {
        match format!(in alloc; "{cause}") {
            Ok(text) => Failure::Refused(text),
            Err(AllocError) => Failure::Memory,
        }
    }

    /// Words that are bad, for this cause.
    pub fn unmeant(alloc: Global, cause: &str) -> Failure {
        match String::from_str(alloc, cause) {
            Ok(cause) => Failure::Unmeant(cause),
            Err(AllocError) => Failure::Memory,
        }
    }

    /// The exit status: 1 where the command was refused or failed, 2 where its words are bad, 3 where it is done but for
    /// some files.
    fn code(&self) -> u8
        ensures { result ≡ status_of self.now }
    {
        match self {
            Failure::BadWords | Failure::Unmeant(_) => 2,
            Failure::Partly => 3,
            Failure::Refused(_) | Failure::Told | Failure::Unwritten | Failure::Memory => 1,
        }
    }
}

impl From<AllocError> for Failure {
    ghost from_gives = { λ _ _. ⊤ };

    fn from(_error: AllocError) -> Failure {
        Failure::Memory
    }
}

impl<T: Drop> From<AllocFailed<T>> for Failure {
    ghost from_gives = { λ _ _. ⊤ };

    fn from(_error: AllocFailed<T>) -> Failure {
        Failure::Memory
    }
}

/// Says on standard error why the command wasn't done, and answers the exit status.
pub fn report_failure(rt: &HostRuntime, failure: Failure) -> u8
    ensures { result ≡ status_of failure }
{
    let code = failure.code();
    let _said = match failure {
        Failure::Unmeant(cause) | Failure::Refused(cause) => eprintln!(rt; "keep: {cause}"),
        Failure::Unwritten => eprintln!(rt; "keep: cannot write standard output"),
        Failure::Memory => eprintln!(rt; "keep: no memory: run it with more"),
        Failure::BadWords | Failure::Told | Failure::Partly => Ok(()),
    };
    code
}
