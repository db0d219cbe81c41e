ghost use Rattle.std.specs.Prelude.{◌↔◌, IsTrue};
ghost use Rattle.keep_names.specs.Id.{IsDigest, id_text};
ghost use Rattle.keep_paths.specs.KeyPath.{IsName, IsFrontOf, name_path, pack_path};
ghost use Rattle.keep_names.specs.Parses.{Parses};

use keep_names::{FileName, Id, parse_id, parse_kind};

/// The id of these digits.
pub(crate) fn parse_digits(digits: &str) -> Option<Id>
    ensures { Parses IsDigest id_text digits.now result }
{
    parse_id(digits).ok()
}

/// The name whose kind is a folder and whose id is a file in it.
pub(crate) fn parse_name(path: &str) -> Option<FileName>
    ensures { Parses IsName name_path path.now result }
{
    let (word, digits) = path.split_once('/')?;
    let kind = parse_kind(word)?;
    let id = parse_digits(digits)?;
    Some(FileName { kind, id })
}

/// The id of a pack that lies in the folder of its first two digits.
pub(crate) fn parse_pack(path: &str) -> Option<Id>
    ensures { Parses IsDigest pack_path path.now result }
{
    let (folder, digits) = path.split_once('/')?;
    let id = parse_digits(digits)?;
    if is_front_of(folder, digits) {
        Some(id)
    } else {
        None
    }
}

/// Whether the folder is the first two digits.
fn is_front_of(folder: &str, digits: &str) -> bool
    ensures { IsTrue result ↔ IsFrontOf folder.now digits.now }
{
    match digits.as_bytes().get(..2) {
        Some(front) => front == folder.as_bytes(),
        None => false,
    }
}
