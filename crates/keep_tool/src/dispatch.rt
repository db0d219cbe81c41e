use crate::folder_opening::over_folder;
use crate::script::script;
use keep_catalog::Hashing;
use keep_disk::{Cause, FolderError};
use keep_folder::{BeginError, begin};
use keep_looks::MachineZone;
use keep_openings::Unopened;
use keep_restoring::rescue_folder;
use keep_run::{Failure, Run};
use keep_typed::read_words;
use keep_words::{Command, Words};
use std::alloc::Global;
use std::env::{self, VarError};
use std::io::ErrorKind;
use std::sync::Wait;
use std::thread::Threads;
use std::time::Clock;

/// Does what the words of the process say. Blobs are hashed by this where many are.
pub(crate) fn keep<H: Hashing + Wait + Threads + Copy + Send + 'static>(
    rt: &HostRuntime,
    hashing: H,
) -> Result<(), Failure> {
    let alloc = rt.alloc();
    let words: Vec<String> = match env::args(rt) {
        Ok(words) => words.collect(alloc)?,
        Err(error) if error.kind() == ErrorKind::OutOfMemory => return Err(Failure::Memory),
        Err(_) => return Err(Failure::unmeant(rt.alloc(), "a word isn't UTF-8")),
    };
    let words: Vec<&str> = words.iter().map(|word| word.as_str()).collect(alloc)?;
    match read_words(alloc, words.as_slice()) {
        Ok(words) => run_words(rt, hashing, words),
        Err(error) => {
            if error.print(rt).is_err() {
                return Err(Failure::Unwritten);
            }
            if error.exit_code() == 0 {
                Ok(())
            } else {
                Err(Failure::BadWords)
            }
        }
    }
}

/// Does what these words say.
fn run_words<H: Hashing + Wait + Threads + Copy + Send + 'static>(
    rt: &HostRuntime,
    hashing: H,
    words: Words<'_>,
) -> Result<(), Failure> {
    let Words {
        repo,
        json,
        wait,
        command,
    } = words;
    match command {
        Command::Init { folder } => begin_at(rt, folder, json),
        command => run_command(rt, hashing, repo, json, wait, command),
    }
}

/// Does what the command says, over the repository that the words name, or the variable `KEEP_REPOSITORY`. A rescue names
/// its own.
fn run_command<H: Hashing + Wait + Threads + Copy + Send + 'static>(
    rt: &HostRuntime,
    hashing: H,
    repo: Option<&str>,
    is_json: bool,
    wait: u64,
    command: Command<'_>,
) -> Result<(), Failure> {
    let folder = match (&command, repo) {
        (Command::Rescue { folder, .. }, _) => String::from_str(rt.alloc(), folder)?,
        (_, Some(repo)) => String::from_str(rt.alloc(), repo)?,
        (_, None) => folder_named(rt)?,
    };
    let zone = MachineZone::read(rt);
    let run = Run {
        rt,
        alloc: rt.alloc(),
        folder: folder.as_str(),
        is_json,
        wait,
        now: now(rt),
        zone: &zone,
    };
    match &command {
        Command::Script { file } => script(&run, hashing, *file),
        Command::Rescue { target, .. } => rescue_folder(&run, target),
        command => over_folder(&run, hashing, command),
    }
}

/// `keep init`
fn begin_at(rt: &HostRuntime, folder: &str, is_json: bool) -> Result<(), Failure> {
    let alloc = rt.alloc();
    let text = match begin(rt, folder) {
        Ok(id) if is_json => format!(in alloc; "{{\"id\":\"{id}\"}}\n")?,
        Ok(id) => format!(in alloc; "repository {id} is in {folder}\n")?,
        Err(BeginError::NotEmpty) => {
            let cause = format!(in alloc;
                "{folder} isn't empty: name a new folder, or an empty one"
            )?;
            return Err(Failure::Refused(cause));
        }
        Err(BeginError::Folder(error)) => return Err(unmade(alloc, folder, error)),
    };
    match rt.print(text) {
        Ok(()) => Ok(()),
        Err(_) => Err(Failure::Unwritten),
    }
}

/// Says that no repository is made in the folder, for this cause.
fn unmade(alloc: Global, folder: &str, error: FolderError) -> Failure {
    let text = match error {
        FolderError::Fault(Cause::Missing) => {
            format!(in alloc;
                "cannot make {folder}: the folder above it isn't there: make that one first"
            )
        }
        FolderError::Fault(cause) => {
            format!(in alloc;
                "cannot make {folder}: {cause}: name a new folder in one that can be written"
            )
        }
        error => {
            let cause = Unopened::Folder(error);
            format!(in alloc; "cannot make {folder}: {cause}")
        }
    };
    match text {
        Ok(text) => Failure::Refused(text),
        Err(_) => Failure::Memory,
    }
}

/// The folder that the variable names.
fn folder_named(rt: &HostRuntime) -> Result<String, Failure> {
    match env::var(rt, "KEEP_REPOSITORY") {
        Ok(folder) if folder.is_empty() => Err(Failure::unmeant(
            rt.alloc(),
            "KEEP_REPOSITORY is set and empty",
        )),
        Ok(folder) => Ok(folder),
        Err(VarError::OutOfMemory) => Err(Failure::Memory),
        Err(_) => Err(Failure::unmeant(
            rt.alloc(),
            "name a repository by -r DIR or KEEP_REPOSITORY",
        )),
    }
}

/// The moment, 1970-01-01T00:00:00Z where the clock can't be read.
fn now(rt: &HostRuntime) -> i64 {
    match rt.since_1970() {
        Ok(since) => i64::try_from(since.as_secs()).unwrap_or(0),
        Err(_) => 0,
    }
}
