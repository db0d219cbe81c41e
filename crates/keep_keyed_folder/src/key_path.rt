ghost use Rattle.std.specs.Prelude.{◌≡◌, IfOk, string_bytes};
ghost use Rattle.keep_paths.specs.KeyPath.{key_path};

use keep_paths::path_of_key;
use keep_shelf::Key;
use std::alloc::{AllocError, Global};

/// A key and the path of its file.
///
/// It is made before an act, which then wants no memory of its own.
#[derive(Drop)]
pub struct KeyPath {
    pub key: Key,
    text: String,
    ghost leads: { string_bytes text ≡ key_path key },
}

impl KeyPath {
    pub fn new(alloc: Global, key: Key) -> Result<KeyPath, AllocError>
        ensures { IfOk result (λ path. path.key ≡ key) }
    {
        let text = path_of_key(alloc, key)?;
        Ok(KeyPath { key, text })
    }

    /// The path below the root.
    pub fn as_str(&self) -> &str
        ensures { result.now ≡ key_path self.now.key }
    {
        self.text.as_str()
    }
}
