ghost use Rattle.std.specs.Prelude.{◌≡◌, IfOk, map, false};
ghost use Rattle.std.specs.List.{slice_split};
ghost use Rattle.std.specs.Str.{chars};
ghost use Rattle.keep_sources.specs.Excluding as spec;
ghost use Rattle.keep_patterns.specs.Parsing.{is_slash, pattern_view};

use keep_patterns::{Letters, Pattern, is_matched, letters_of};
use std::alloc::{AllocError, Global};

/// Whether one of the patterns matches the path.
pub(crate) fn is_excluded(
    alloc: Global,
    patterns: &[Pattern],
    path: &str,
) -> Result<bool, AllocError>
    ensures { IfOk result (λ found. found ≡ spec.is_excluded (map pattern_view patterns.now) path.now) }
{
    if patterns.is_empty() {
        return Ok(false);
    }
    let parts = parts_of(alloc, path)?;
    let names = names_of(alloc, parts.as_slice())?;
    Ok(is_matched(patterns, names.as_slice()))
}

/// What stands between the slashes.
fn parts_of<'a>(alloc: Global, path: &'a str) -> Result<Vec<&'a str>, AllocError>
    ensures { IfOk result (λ parts. map (λ part. part.now) parts.items ≡ slice_split is_slash path.now) }
{
    let parts: Vec<&str> = path.split('/').collect(alloc)?;
    Ok(parts)
}

/// The characters of each name.
fn names_of(alloc: Global, parts: &[&str]) -> Result<Vec<Letters>, AllocError>
    ensures { IfOk result (λ names. names.items ≡ map chars (map (λ part. part.now) parts.now)) }
{
    let mut names = Vec::with_capacity(alloc, parts.len())?;
    for part in parts {
        let letters = letters_of(alloc, part)?;
        names.push(letters)?;
    }
    Ok(names)
}
