ghost use Rattle.std.specs.Prelude.{◌≡◌, ◌↔◌, IsTrue};
ghost use Rattle.keep_names.specs.Id.{is_lower_hex_digit};
ghost use Rattle.keep_paths.specs.Folder.{HoldsKeys, HoldsTrash, IsPackFolder, IsTopFolder};

use keep_names::{parse_kind, parse_number};

/// Whether a key can lie in the folder of this path, or in one below it.
pub fn holds_keys(folder: &str) -> bool
    ensures { IsTrue result ↔ HoldsKeys folder.now }
{
    let Some((first, rest)) = folder.split_once('/') else {
        return is_top_folder(folder);
    };
    match first {
        "data" => is_pack_folder(rest),
        "trash" => is_trash_folder(rest),
        _ => false,
    }
}

fn is_top_folder(name: &str) -> bool
    ensures { IsTrue result ↔ IsTopFolder name.now }
{
    matches!(name, "data" | "index" | "snapshots" | "trash" | "journal")
}

/// Whether packs lie in the folder of this name.
fn is_pack_folder(name: &str) -> bool
    ensures { IsTrue result ↔ IsPackFolder name.now }
{
    match name.as_bytes() {
        [high, low] => is_digit(*high) && is_digit(*low),
        _ => false,
    }
}

fn is_digit(byte: u8) -> bool
    ensures { result ≡ is_lower_hex_digit byte }
{
    matches!(byte, b'0'..=b'9' | b'a'..=b'f')
}

/// Whether files of one change, or of one kind of it, lie in the folder of this path in the trash.
fn is_trash_folder(path: &str) -> bool
    ensures { IsTrue result ↔ HoldsTrash path.now }
{
    match path.split_once('/') {
        Some((number, word)) => parse_number(number).is_some() && parse_kind(word).is_some(),
        None => parse_number(path).is_some(),
    }
}
