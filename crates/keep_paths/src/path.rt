ghost use Rattle.std.specs.Prelude.{◌≡◌, IfOk, IfSome, Some, string_bytes};
ghost use Rattle.keep_paths.specs.KeyPath.{IsInTrash, IsKey, key_path, trash_path};
ghost use Rattle.keep_names.specs.Parses.{Parses};
ghost use Rattle.keep_shelf.specs.declared.key.Key.{Key};

use crate::name::{parse_digits, parse_name, parse_pack};
use keep_names::{FileName, parse_number, path_of};
use keep_shelf::Key;
use std::alloc::{AllocError, Global};

/// Where what is under the key lies, below the folder.
pub fn path_of_key(alloc: Global, key: Key) -> Result<String, AllocError>
    ensures { IfOk result (λ path. string_bytes path ≡ key_path key) }
{
    match key {
        Key::Live(name) => path_of(alloc, name),
        Key::Trash(number, FileName { kind, id }) => {
            format!(in alloc; "trash/{number}/{kind}/{id}")
        }
        Key::Entry(number) => format!(in alloc; "journal/{number}"),
    }
}

/// The key that has this path below the folder, if one has it.
pub fn key_of_path(path: &str) -> Option<Key>
    ensures value { IfSome result (λ key. key_path key ≡ path.now) }
    ensures printed { (key : Key) → IsKey key → key_path key ≡ path.now → result ≡ Some key }
{
    find_key(path)
}

/// A key that has this path.
fn find_key(path: &str) -> Option<Key>
    ensures { Parses IsKey key_path path.now result }
{
    let (folder, rest) = path.split_once('/')?;
    match folder {
        "data" => Some(Key::Live(FileName::pack(parse_pack(rest)?))),
        "index" => Some(Key::Live(FileName::index(parse_digits(rest)?))),
        "snapshots" => Some(Key::Live(FileName::snapshot(parse_digits(rest)?))),
        "trash" => {
            let (number, name) = parse_trash(rest)?;
            Some(Key::Trash(number, name))
        }
        "journal" => Some(Key::Entry(parse_number(rest)?)),
        _ => None,
    }
}

/// The number and the name of a file in the trash, by its path there.
fn parse_trash(path: &str) -> Option<(u64, FileName)>
    ensures { Parses IsInTrash trash_path path.now result }
{
    let (number, name) = path.split_once('/')?;
    let number = parse_number(number)?;
    let name = parse_name(name)?;
    Some((number, name))
}
