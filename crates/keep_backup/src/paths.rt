ghost use Rattle.std.specs.Prelude.{◌≡◌, IfOk, map, ok_or, option_map};
ghost use Rattle.std.specs.Bool.{OnFalse};
ghost use Rattle.std.specs.List.Sorted.{IsSortedBy};
ghost use Rattle.std.specs.Ordering.{is_lt};
ghost use Rattle.keep_docs.specs.Doc.{Answers};
ghost use Rattle.keep_docs.specs.Lists.{each};
ghost use Rattle.keep_backup.specs.Files.{file_view, given_view, names_view, paths_seen};
ghost use Rattle.keep_backup.specs.Paths.{AreNamed, StandInOrder, any_clash, components_of, given_file, path_cmp};
ghost use Rattle.keep_backup.specs.Paths as spec;
ghost use Rattle.keep_plan.specs.declared.plan_error.PlanError.TheVariants as the_error;

use keep_plan::PlanError;
use keep_tree::is_name;
use std::alloc::{AllocError, Global};

/// A file that is backed up: the names of its path from the root on, and its bytes.
#[derive(Drop)]
pub(crate) struct PathFile<'a> {
    pub(crate) names: Vec<&'a str>,
    pub(crate) bytes: &'a [u8],
}

/// The files in the order of their paths. A path that is none is `BadPath`, whatever the others are; then
/// two paths that are one, or of which one lies below the other, are `SamePathTwice`.
pub(crate) fn files_in_order<'a>(
    alloc: Global,
    given: &'a [(String, Vec<u8>)],
) -> Result<Vec<PathFile<'a>>, PlanError>
    ensures files { Answers the_error.Memory (λ files. map file_view files.items)
        (spec.files_in_order (map given_view given.entry.now)) result }
    ensures in_order { IfOk result (λ files. StandInOrder (paths_seen 0 files.items)) }
    ensures named { IfOk result (λ files. AreNamed (paths_seen 0 files.items)) }
{
    let mut files = parsed(alloc, given)?;
    files.sort_by(|a, b| a.names.cmp(&b.names))?;
    if have_clash(&files) {
        return Err(PlanError::SamePathTwice);
    }
    Ok(files)
}

/// Each file with the names of its path.
fn parsed<'a>(alloc: Global, given: &'a [(String, Vec<u8>)]) -> Result<Vec<PathFile<'a>>, PlanError>
    ensures { Answers the_error.Memory (λ files. map file_view files.items)
        (ok_or (each given_file (map given_view given.entry.now)) the_error.BadPath) result }
{
    let mut files = Vec::with_capacity(alloc, given.len())?;
    for (path, bytes) in given {
        let file = parse(alloc, path.as_str(), bytes.as_slice())?;
        files.push(file)?;
    }
    Ok(files)
}

/// The file with the names of its path.
fn parse<'a>(alloc: Global, path: &'a str, bytes: &'a [u8]) -> Result<PathFile<'a>, PlanError>
    ensures { Answers the_error.Memory file_view
        (ok_or (given_file (path.entry.now, bytes.entry.now)) the_error.BadPath) result }
{
    let names = names_in_path(alloc, path)?.ok_or(PlanError::BadPath)?;
    Ok(PathFile { names, bytes })
}

/// The names of an absolute path from the root on, if it is one.
fn names_in_path<'a>(alloc: Global, path: &'a str) -> Result<Option<Vec<&'a str>>, AllocError>
    ensures { IfOk result (λ names. option_map names_view names ≡ components_of path.entry.now) }
{
    let Some(text) = path.strip_prefix('/') else {
        return Ok(None);
    };
    let names: Vec<&str> = text.split('/').collect(alloc)?;
    if !names.iter().all(|name| is_name(name)) {
        return Ok(None);
    }
    Ok(Some(names))
}

/// Whether two of the paths are one, or one lies below the other: then so do two neighbours.
fn have_clash(files: &[PathFile]) -> bool
    requires sorted { IsSortedBy
        (λ a b. is_lt (path_cmp (names_view a.names) (names_view b.names))) files.now }
    ensures clash { result ≡ any_clash (paths_seen 0 files.now) }
    ensures in_order { OnFalse result (StandInOrder (paths_seen 0 files.now)) }
{
    for i in 1..files.len() {
        if files[i].names.starts_with(&files[i - 1].names) {
            return true;
        }
    }
    false
}
