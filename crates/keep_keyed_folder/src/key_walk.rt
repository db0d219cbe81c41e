ghost use Rattle.std.specs.Prelude.{◌≡◌, ◌++◌, ◌∷◌, [], IfOk, OnOk, OnErr};
ghost use Rattle.keep_files.specs.Content.{HoldsFiles};
ghost use Rattle.keep_files.specs.Stands.{IsClosed};
ghost use Rattle.keep_keyed_folder.specs.Walked.{IsOnTheWay, IsOpened, IsOrderly, IsRead};

use keep_files::{FileTree, Node, TreeError};
use keep_paths::{holds_keys, key_is_sized, key_of_path};
use keep_rope::Rope;
use keep_shelf::Stock;
use std::alloc::Global;

/// How many paths are looked at, at most. A tree that has more is given up.
const MAX_TURNS: u32 = 67_108_864;

/// Reads all that is under keys in the tree. What has no key's path is passed over. A folder where a key's file would
/// be is refused, and so is a file where a folder of such files would be.
pub fn read_keys<T: FileTree>(alloc: Global, tree: &mut T) -> Result<Stock, TreeError>
    requires { IsClosed (T.seen tree.old).stands }
    ensures read { IfOk result (λ found. HoldsFiles (T.seen tree.old).stands found) }
    ensures orderly { OnOk result (IsOrderly (T.seen tree.old).stands) }
    ensures ok { OnOk result (T.seen tree.new ≡ T.seen tree.old) }
    ensures err { OnErr result ((T.seen tree.new).stands ≡ (T.seen tree.old).stands) }
{
    let mut found = Stock::new(alloc);
    let mut paths = tree.list("")?;
    for _ in 0..MAX_TURNS {
        match paths.pop() {
            Some(path) => read_path(tree, &mut found, &mut paths, path)?,
            None => return Ok(found),
        }
    }
    Err(TreeError::Broken)
}

/// Takes what stands at the path: a file's bytes under its key, and of a folder the paths in it.
fn read_path<T: FileTree>(
    tree: &mut T,
    found: &mut Stock,
    paths: &mut Vec<String>,
    path: String,
) -> Result<(), TreeError>
    requires closed { IsClosed (T.seen tree.old).stands }
    requires way { IsOnTheWay (T.seen tree.old).stands found.old (paths.old.items ++ path ∷ []) }
    ensures way { OnOk result (IsOnTheWay (T.seen tree.old).stands found.new paths.new.items) }
    ensures ok { OnOk result (T.seen tree.new ≡ T.seen tree.old) }
    ensures err { OnErr result ((T.seen tree.new).stands ≡ (T.seen tree.old).stands) }
{
    match tree.read(path.as_str())? {
        Some(Node::Folder) => note_folder(tree, paths, path.as_str()),
        Some(Node::File(bytes)) => note_file(found, path.as_str(), &bytes),
        None => Ok(()),
    }
}

/// Notes the paths in a folder of keys, and passes another one over.
fn note_folder<T: FileTree>(
    tree: &mut T,
    paths: &mut Vec<String>,
    path: &str,
) -> Result<(), TreeError>
    ensures opened { OnOk result (IsOpened (T.seen tree.old).stands path.now paths.old.items paths.new.items) }
    ensures ok { OnOk result (T.seen tree.new ≡ T.seen tree.old) }
    ensures err { OnErr result ((T.seen tree.new).stands ≡ (T.seen tree.old).stands) }
{
    if let Some(_) = key_of_path(path) {
        return Err(TreeError::Broken);
    }
    if !holds_keys(path) {
        return Ok(());
    }
    let mut inner = tree.list(path)?;
    paths.append(&mut inner)?;
    Ok(())
}

/// Notes the bytes of a key's file, and passes another file over.
fn note_file(found: &mut Stock, path: &str, bytes: &Rope) -> Result<(), TreeError>
    ensures { OnOk result (IsRead path.now bytes.now found.old found.new) }
{
    if holds_keys(path) {
        return Err(TreeError::Broken);
    }
    let Some(key) = key_of_path(path) else {
        return Ok(());
    };
    key_is_sized(key);
    found.write(key, bytes.clone()?)?;
    Ok(())
}
