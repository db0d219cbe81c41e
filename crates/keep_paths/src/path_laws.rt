ghost use Rattle.std.specs.Prelude.{◌≡◌};
ghost use Rattle.keep_paths.specs.KeyPath.{IsKey, key_path};

use keep_names::text_names_id;
use keep_shelf::Key;

/// What the type of a key says of it.
pub fn key_is_sized(key: Key)
    ensures { IsKey key }
{
    match key {
        Key::Live(name) => text_names_id(name.id, name.id),
        Key::Trash(_, name) => text_names_id(name.id, name.id),
        Key::Entry(_) => {}
    }
}

/// Two keys never have one path.
pub fn path_names_key(first: Key, second: Key)
    ensures { key_path first ≡ key_path second → first ≡ second }
{
    key_is_sized(first);
    key_is_sized(second);
}
