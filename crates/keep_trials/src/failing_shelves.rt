use crate::scripts::end_over;
use keep_ledger::OpenError;
use keep_names::{FileName, id_of};
use keep_repo::Bytes;
use keep_rope::Rope;
use keep_script::RunStatus;
use keep_shelf::{FailingShelf, Key, MemoryShelf, Shelf};
use std::test::Fail;

/// The shelf is asked for its keys first. Then each `add` makes two calls: its entry, and the file. So does the undo of
/// one: its entry, and the file's way into the trash.
const FIRST_UNDO: &str = "add index 61\nadd index 62\nundo 2\ncount\nadd index 63\nundo 1\nhistory";

#[test]
fn an_undo_is_unsettled_where_the_shelf_fails_from_its_move_on(rt: HostRuntime) {
    let alloc = rt.alloc();
    let shelf = FailingShelf::onward(MemoryShelf::new(alloc), 7);
    let mut writer = Vec::new(alloc);
    let ended = end_over(alloc, shelf, &mut FIRST_UNDO.as_bytes(), &mut writer);
    assert!(rt; ended == RunStatus::Faulted);
    let answers = "ok 1 at 1 +1 -0 *0 ~0\n\
         ok 2 at 2 +1 -0 *0 ~0\n\
         no Unsettled 2\n\
         files 1 marks 0\n\
         no Fault\n\
         no Fault\n\
         1 commit 1\n\
         2 commit 2\n\
         3 undo 2\n";
    assert!(rt; writer.as_slice() == answers.as_bytes());
}

/// The second `add` is given twice.
const SECOND_ADD: &str = "add index 61\nnote n\nadd index 62\nsame n\nhistory\nadd index 62";

#[test]
fn all_is_as_before_where_an_entry_is_not_written(rt: HostRuntime) {
    let alloc = rt.alloc();
    let shelf = FailingShelf::once(MemoryShelf::new(alloc), 4);
    let mut writer = Vec::new(alloc);
    let ended = end_over(alloc, shelf, &mut SECOND_ADD.as_bytes(), &mut writer);
    assert!(rt; ended == RunStatus::Faulted);
    let answers = "ok 1 at 1 +1 -0 *0 ~0\n\
         noted n\n\
         no Fault\n\
         same n yes\n\
         1 commit 1\n\
         ok 2 at 2 +1 -0 *0 ~0\n";
    assert!(rt; writer.as_slice() == answers.as_bytes());
}

#[test]
fn a_shelf_with_trash_and_an_entry_is_not_opened(rt: HostRuntime) -> Result<(), Fail> {
    let alloc = rt.alloc();
    let mut shelf = MemoryShelf::new(alloc);
    let bytes = Rope::of(Bytes::new(alloc, Vec::new(alloc))?);
    let name = FileName::index(id_of(b"one"));
    shelf.write(Key::Trash(1, name), &bytes)?;
    shelf.write(Key::Entry(3), &bytes)?;
    let mut writer = Vec::new(alloc);
    let ended = end_over(alloc, shelf, &mut b"count".as_slice(), &mut writer);
    assert!(rt; ended == RunStatus::NotOpened(OpenError::BadEntry(3)));
    assert!(rt; writer.is_empty());
    Ok(())
}
