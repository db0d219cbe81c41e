ghost use Rattle.std.specs.Prelude.{IfOk, string_bytes};
ghost use Rattle.keep_keyed_folder.specs.Tmp.{IsTmp};

use crate::scripts::end_over;
use keep_folder::FolderShelf;
use keep_memory_files::{FailingTree, MemoryTree};
use keep_script::RunStatus;
use std::alloc::{AllocError, Global};
use std::test::Fail;

/// The first entry is put at its place by the seventh call of a tree in which nothing stands. Before it the tree is listed;
/// a file under way is removed, its folder looked for, made, and what holds that synced; and the entry is written there.
const FIRST_RENAME: u64 = 7;

const ONE_ADD: &str = "add index 61\ncount";

#[test]
fn an_entry_that_is_there_and_answered_as_an_error_ends_the_run(
    rt: HostRuntime,
) -> Result<(), Fail> {
    let alloc = rt.alloc();
    let tree = FailingTree::once_done(MemoryTree::new(alloc), FIRST_RENAME);
    let Ok(shelf) = FolderShelf::open(alloc, tree, under_way(alloc)?) else {
        return Err(Fail::new("the folder isn't opened"));
    };
    let mut writer = Vec::new(alloc);
    let ended = end_over(alloc, shelf, &mut ONE_ADD.as_bytes(), &mut writer);
    assert!(rt; ended == RunStatus::Untold);
    assert!(rt; writer.is_empty());
    Ok(())
}

#[test]
fn a_run_goes_on_where_an_entry_is_not_there(rt: HostRuntime) -> Result<(), Fail> {
    let alloc = rt.alloc();
    let tree = FailingTree::once(MemoryTree::new(alloc), FIRST_RENAME);
    let Ok(shelf) = FolderShelf::open(alloc, tree, under_way(alloc)?) else {
        return Err(Fail::new("the folder isn't opened"));
    };
    let mut writer = Vec::new(alloc);
    let ended = end_over(alloc, shelf, &mut ONE_ADD.as_bytes(), &mut writer);
    assert!(rt; ended == RunStatus::Faulted);
    assert!(rt; writer.as_slice() == b"no Fault\nfiles 0 marks 0\n".as_slice());
    Ok(())
}

/// What a file is called that is under way.
fn under_way(alloc: Global) -> Result<String, AllocError>
    ensures { IfOk result (λ name. IsTmp (string_bytes name)) }
{
    String::from_str(alloc, "tmp-1")
}
