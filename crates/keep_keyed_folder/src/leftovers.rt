//! Files that were under way when an earlier run ended.
ghost use Rattle.std.specs.Prelude.{◌≡◌, ◌↔◌, IsTrue, IfErr, OnOk, OnErr, false};
ghost use Rattle.keep_files.specs.Stands.{IsClosed, is_file};
ghost use Rattle.keep_keyed_folder.specs.Keyed.{HasFailure};
ghost use Rattle.keep_keyed_folder.specs.Tmp.{HasNoLeftovers, IsCleared, IsTmp};

use keep_files::{FileTree, TreeError, home_of};

/// Takes away what earlier runs left under way.
pub(crate) fn clear<T: FileTree>(tree: &mut T) -> Result<(), TreeError>
    requires { IsClosed (T.seen tree.old).stands }
    ensures closed { IsClosed (T.seen tree.new).stands }
    ensures gone { OnOk result (HasNoLeftovers (T.seen tree.new).stands) }
    ensures rest { IsCleared (T.seen tree.old).stands (T.seen tree.new).stands }
    ensures none_failed { OnOk result ((T.seen tree.new).failures ≡ (T.seen tree.old).failures) }
    ensures err { OnErr result (HasFailure (T.seen tree.old) (T.seen tree.new)) }
{
    let mut paths = tree.list("")?;
    while let Some(path) = paths.pop() {
        clear_path(tree, path.as_str())?;
    }
    Ok(())
}

/// Takes away the file at the path, if it was under way.
fn clear_path<T: FileTree>(tree: &mut T, path: &str) -> Result<(), TreeError>
    requires { IsClosed (T.seen tree.old).stands }
    ensures closed { IsClosed (T.seen tree.new).stands }
    ensures gone { OnOk result (IsTmp path.now → is_file ((T.seen tree.new).stands path.now) ≡ false) }
    ensures rest { IsCleared (T.seen tree.old).stands (T.seen tree.new).stands }
    ensures none_failed { OnOk result ((T.seen tree.new).failures ≡ (T.seen tree.old).failures) }
    ensures err { OnErr result (HasFailure (T.seen tree.old) (T.seen tree.new)) }
{
    if !is_tmp(path) {
        return Ok(());
    }
    if tree.has_folder(path)? {
        return Ok(());
    }
    tree.remove(path)
}

fn is_tmp(path: &str) -> bool
    ensures { IsTrue result ↔ IsTmp path.now }
{
    match home_of(path) {
        Some(_) => false,
        None => path == "tmp" || path.starts_with("tmp-"),
    }
}
