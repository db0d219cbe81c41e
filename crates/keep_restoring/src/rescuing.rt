use keep_folder::config_bytes;
use keep_host_source::HostSource;
use keep_host_target::open_target;
use keep_names::Id;
use keep_progress::{CountedSource, Meter};
use keep_rescue::{NotRescued, Rescued, rescue};
use keep_run::{Failure, Left, Run, left_value};
use keep_sources::Why;
use keep_tables::shown;
use serde_json::json;
use std::fs;
use std::random::RandomSource;

/// `keep rescue`: a new folder of what is whole in the repository's.
pub fn rescue_folder(run: &Run<'_>, target: &str) -> Result<(), Failure> {
    let folder = run.folder;
    if let Err(error) = fs::read_dir(run.rt, folder) {
        let cause = format!(in run.alloc; "cannot read {folder}: {error}")?;
        return Err(Failure::Refused(cause));
    }
    let fresh = fresh_config(run)?;
    let source = HostSource::new(run.rt, folder)?;
    let source = CountedSource::new(source, Meter::new(run.rt, "rescue", "files"));
    let made = match open_target(run.rt, target) {
        Ok(made) => made,
        Err(refusal) => {
            let cause = format!(in run.alloc; "cannot make {target}: {refusal}")?;
            return Err(Failure::Refused(cause));
        }
    };
    match rescue(run.alloc, source, made, fresh.as_str()) {
        Ok(rescued) => print_rescued(run, &rescued),
        Err(error) => Err(not_rescued(run, target, error)),
    }
}

/// The config of a repository of a new id.
fn fresh_config(run: &Run<'_>) -> Result<String, Failure> {
    let mut id = Id([0u8; 32]);
    if let Err(error) = run.rt.fill_bytes(&mut id.0) {
        let cause = format!(in run.alloc; "cannot make a new id: {error}")?;
        return Err(Failure::Refused(cause));
    }
    match config_bytes(run.alloc, id) {
        Ok(text) => Ok(text),
        Err(_) => Err(Failure::Memory),
    }
}

/// Says why nothing was rescued, and what to do then.
fn not_rescued(run: &Run<'_>, target: &str, error: NotRescued) -> Failure {
    let cause = match error {
        NotRescued::NotNew => {
            format!(in run.alloc; "{target} isn't empty: name a new folder, or an empty one")
        }
        NotRescued::NothingWhole => {
            format!(in run.alloc;
                "{} has no file that is whole: name a repository's folder",
                run.folder
            )
        }
        NotRescued::Refused(refusal) => {
            format!(in run.alloc;
                "cannot write {target}: {refusal}: it has no config, so it doesn't open"
            )
        }
        NotRescued::Memory => return Failure::Memory,
    };
    match cause {
        Ok(cause) => Failure::Refused(cause),
        Err(_) => Failure::Memory,
    }
}

/// Prints how many files are in the new folder, and what isn't.
fn print_rescued<T>(run: &Run<'_>, rescued: &Rescued<T>) -> Result<(), Failure> {
    let left = left_of(run, rescued)?;
    let left = left.as_slice();
    let files = rescued.saved.len() as u64;
    if run.is_json {
        let left_out = left_value(run, left)?;
        let value = json!(in run.alloc; {
            "files": files,
            "left_out": left_out
        })?;
        run.print_value(&value)?;
    } else {
        let text = format!(in run.alloc; "rescued: {files} files\n")?;
        run.print(text.as_bytes())?;
        print_left(run, left)?;
    }
    if left.is_empty() {
        return Ok(());
    }
    let _said = eprintln!(run.rt; "keep: what is named isn't in the new folder");
    Err(Failure::Partly)
}

fn print_left(run: &Run<'_>, left: &[Left]) -> Result<(), Failure> {
    for one in left {
        let path = shown(run.alloc, one.path.as_str())?;
        let text = format!(in run.alloc; "{path}: {}\n", one.why)?;
        run.print(text.as_bytes())?;
    }
    Ok(())
}

/// What isn't in the new folder as it was in the old one, in words.
fn left_of<T>(run: &Run<'_>, rescued: &Rescued<T>) -> Result<Vec<Left>, Failure> {
    let mut left = Vec::new(run.alloc);
    if !rescued.has_config {
        let path = String::from_str(run.alloc, "config")?;
        let why = String::from_str(run.alloc, "none can be read: the repository has a new id")?;
        left.push(Left { path, why })?;
    }
    for one in &rescued.lost {
        let path = one.path.clone()?;
        let why = format!(in run.alloc; "{}", one.why)?;
        left.push(Left { path, why })?;
    }
    for one in &rescued.skipped {
        let path = one.path.clone()?;
        let why = why_text(run, one.why)?;
        left.push(Left { path, why })?;
    }
    Ok(left)
}

fn why_text(run: &Run<'_>, why: Why) -> Result<String, Failure> {
    let text = match why {
        Why::Denied => "it can't be read: permission is wanting",
        Why::Gone => "it isn't there any more",
        Why::Replaced => "something else stands there now",
        Why::Unsayable(count) => {
            return Ok(format!(in run.alloc; "{count} names in it aren't UTF-8")?);
        }
        Why::TooDeep => "more than 256 folders lead there",
        Why::Failed => "it can't be read",
        Why::Shrank | Why::Grew => "it changed while it was read",
    };
    Ok(String::from_str(run.alloc, text)?)
}
