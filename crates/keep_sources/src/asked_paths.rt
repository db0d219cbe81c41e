ghost use Rattle.std.specs.Prelude.{◌≡◌, IfOk, map, string_bytes};
ghost use Rattle.keep_sources.specs.Job as spec;

use crate::excluding::is_excluded;
use crate::scope::Scope;
use std::alloc::{AllocError, Global};

/// Whether the path is asked for.
pub(crate) fn is_asked(alloc: Global, job: &Scope, path: &str) -> Result<bool, AllocError>
    ensures { IfOk result (λ asked. asked ≡ spec.is_asked job.now path.now) }
{
    if !is_wanted(job.paths.as_slice(), path) {
        return Ok(false);
    }
    let excluded = is_excluded(alloc, job.excludes.as_slice(), path)?;
    Ok(!excluded)
}

/// Whether the path lies within one of the paths, or one of them within it.
fn is_wanted(paths: &[String], path: &str) -> bool
    ensures { result ≡ spec.is_wanted (map string_bytes paths.now) path.now }
{
    for chosen in paths {
        let below = is_within(chosen.as_str(), path);
        let above = is_within(path, chosen.as_str());
        if below | above {
            return true;
        }
    }
    false
}

/// Whether the path is the folder's, or lies below it.
fn is_within(folder: &str, path: &str) -> bool
    ensures { result ≡ spec.is_within folder.now path.now }
{
    let folder = folder.as_bytes();
    if folder.is_empty() {
        return true;
    }
    match path.as_bytes().strip_prefix(folder) {
        Some(tail) => ends_or_parts(tail),
        None => false,
    }
}

/// Whether a text ends, or goes on with a slash.
fn ends_or_parts(tail: &[u8]) -> bool
    ensures { result ≡ spec.ends_or_parts tail.now }
{
    match tail.split_first() {
        Some((first, _)) => *first == b'/',
        None => true,
    }
}
