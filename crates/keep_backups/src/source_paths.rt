ghost use Rattle.std.specs.Prelude.{◌≡◌, IfOk, OnOk, map, option_map, string_bytes};
ghost use Rattle.keep_backups.specs.Paths as spec;
ghost use Rattle.keep_sources.specs.Met.{below};

use keep_quoted::unquote;
use keep_tree::is_name;
use std::alloc::{AllocError, Global};

/// The path below the root of a source that a node's path is, with the names as they were before they were quoted. None
/// where one of them can't be a name there: it isn't UTF-8, or isn't the name of a node.
pub(crate) fn source_path(alloc: Global, path: &str) -> Result<Option<String>, AllocError>
    ensures { IfOk result (λ whole. option_map string_bytes whole ≡ spec.source_path path.now) }
{
    let names = names_of(alloc, path)?;
    let mut whole = String::new(alloc);
    for name in &names {
        let Some(name) = name_before(alloc, name)? else {
            return Ok(None);
        };
        push_name(&mut whole, name.as_str())?;
    }
    Ok(Some(whole))
}

/// The names of a path, each behind a slash.
fn names_of<'a>(alloc: Global, path: &'a str) -> Result<Vec<&'a str>, AllocError>
    ensures { IfOk result (λ names. map (λ name. name.now) names.items ≡ spec.names_of path.entry.now) }
{
    let names: Vec<&str> = path.split('/').skip(1).collect(alloc)?;
    Ok(names)
}

/// Goes on with a name.
fn push_name(path: &mut String, name: &str) -> Result<(), AllocError>
    ensures { OnOk result (string_bytes path.new ≡ below (string_bytes path.old) name.now) }
{
    if !path.is_empty() {
        path.push('/')?;
    }
    path.push_str(name)
}

/// A name as it was before it was quoted.
fn name_before(alloc: Global, quoted: &str) -> Result<Option<String>, AllocError>
    ensures { IfOk result (λ name. option_map string_bytes name ≡ spec.name_before quoted.now) }
{
    let Some(bytes) = unquote(alloc, quoted)? else {
        return Ok(None);
    };
    sayable(alloc, &bytes)
}

/// The bytes as a name, if a source can have it.
fn sayable(alloc: Global, bytes: &[u8]) -> Result<Option<String>, AllocError>
    ensures { IfOk result (λ name. option_map string_bytes name ≡ spec.sayable bytes.now) }
{
    match std::str::from_utf8(bytes) {
        Ok(name) if is_name(name) => Ok(Some(String::from_str(alloc, name)?)),
        _ => Ok(None),
    }
}
