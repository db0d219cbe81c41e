ghost use Rattle.std.specs.Prelude.{◌≡◌, IfOk, map, string_bytes};
ghost use Rattle.std.specs.Str.{bytes_eq};
ghost use Rattle.keep_names.specs.FileName.{path_text};
ghost use Rattle.keep_rescue.specs.Salvage.{path_in, whole_at};

use keep_names::{FileName, id_of};
use keep_paths::path_of_key;
use keep_shelf::Key;
use std::alloc::{AllocError, Global};

/// The file that has its place at this path and just these bytes, if there is one.
pub(crate) fn name_at(
    alloc: Global,
    path: &str,
    bytes: &[u8],
) -> Result<Option<FileName>, AllocError>
    ensures { IfOk result (λ name. name ≡ whole_at path.now bytes.now) }
{
    let id = id_of(bytes);
    if lies_at(alloc, FileName::pack(id), path)? {
        return Ok(Some(FileName::pack(id)));
    }
    if lies_at(alloc, FileName::index(id), path)? {
        return Ok(Some(FileName::index(id)));
    }
    if lies_at(alloc, FileName::snapshot(id), path)? {
        return Ok(Some(FileName::snapshot(id)));
    }
    Ok(None)
}

fn lies_at(alloc: Global, name: FileName, path: &str) -> Result<bool, AllocError>
    ensures { IfOk result (λ lies. lies ≡ bytes_eq path.now (path_text name)) }
{
    let place = path_of_key(alloc, Key::Live(name))?;
    Ok(path == place.as_str())
}

/// The path of a name in the folder that was opened last.
pub(crate) fn path_below(
    alloc: Global,
    folders: &[String],
    name: &str,
) -> Result<String, AllocError>
    ensures { IfOk result (λ path. string_bytes path ≡ path_in (map string_bytes folders.now) name.now) }
{
    match folders.last() {
        Some(folder) => format!(in alloc; "{folder}/{name}"),
        None => String::from_str(alloc, name),
    }
}
