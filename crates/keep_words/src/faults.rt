ghost use Rattle.std.specs.Prelude.{◌≡◌, ◌⊎◌};
ghost use Rattle.clap.specs.Words.{kind_of};
ghost use Rattle.clap.specs.declared.error.kind.ErrorKind.TheVariants.{OutOfMemory};

use clap::error::ErrorKind;
use clap::{Command, Error};
use std::alloc::Global;

/// An error for words that clap takes, in the form of clap's own, with how the command is used.
pub fn refusal(alloc: Global, usage: &str, kind: ErrorKind, message: &str) -> Error
    ensures { (kind_of result ≡ kind) ⊎ (kind_of result ≡ OutOfMemory) }
{
    let mut command = Command::new(alloc, "keep").override_usage(usage);
    match command.error(kind, message) {
        Ok(error) => error,
        Err(no_memory) => Error::from(no_memory),
    }
}
