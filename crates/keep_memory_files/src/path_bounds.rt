ghost use Rattle.std.specs.Prelude.{◌≡◌, ◌↔◌, ◌++◌, IfOk, IsTrue, codes, string_bytes};
ghost use Rattle.keep_files.specs.Path.{IsHeldIn};
ghost use Rattle.keep_memory_files.specs.Bounds.{BoundAllIn};

use keep_files::home_of;
use std::alloc::{AllocError, Global};
use std::ops::Bound;

/// Whether the folder holds what stands at the path. The root's path is empty.
pub(crate) fn is_held_in(path: &str, folder: &str) -> bool
    ensures { IsTrue result ↔ IsHeldIn path.now folder.now }
{
    match home_of(path) {
        Some(home) => home == folder,
        None => folder.is_empty(),
    }
}

/// Bounds between which all lies that the folder holds: from `FOLDER/` up to `FOLDER0`, since a 0 comes right behind a
/// slash. What the root holds may lie anywhere.
pub(crate) fn bounds_of(
    alloc: Global,
    folder: &str,
) -> Result<(Bound<String>, Bound<String>), AllocError>
    ensures { IfOk result (λ bounds. BoundAllIn bounds.0 bounds.1 folder.now) }
{
    if folder.is_empty() {
        return Ok((Bound::Unbounded, Bound::Unbounded));
    }
    let first = with_slash(alloc, folder)?;
    let past = with_zero(alloc, folder)?;
    Ok((Bound::Included(first), Bound::Excluded(past)))
}

fn with_slash(alloc: Global, folder: &str) -> Result<String, AllocError>
    ensures { IfOk result (λ text. string_bytes text ≡ folder.now ++ codes "/") }
{
    format!(in alloc; "{folder}/")
}

fn with_zero(alloc: Global, folder: &str) -> Result<String, AllocError>
    ensures { IfOk result (λ text. string_bytes text ≡ folder.now ++ codes "0") }
{
    format!(in alloc; "{folder}0")
}
