ghost use Rattle.keep_register.specs.Allowed.{AllowsAll};

use crate::adding::is_told;
use crate::commands::Command;
use crate::desk_looks::{Found, look};
use crate::desks::{Scene, play};
use keep_book::Book;
use keep_desk::{Desk, Locked, Pass};
use keep_register::{Keeper, Naming};
use keep_shelf::MemoryShelf;
use std::alloc::Global;
use std::process::Abort;
use std::sync::Wait;
use std::test::Fail;

const FIRST: Command<'static> = Command::Backup("2024-01-01T10:00:00Z", &["/a"], b"hello");

/// It leans on the first: it uses the bytes that are there.
const SECOND: Command<'static> = Command::Backup("2024-01-01T11:00:00Z", &["/a", "/b"], b"hello");

/// One operator makes two backups, and takes the first back with what leans on it. The other never comes.
pub fn both_taken_back<N: Naming, R: Abort + Wait + Drop, K: Keeper>(
    rt: &R,
    alloc: Global,
    desk: &Desk<N, Locked<N, R, K>>,
    mut passes: Vec<Pass<N>>,
) -> Result<Vec<Pass<N>>, Fail>
    requires { AllowsAll N.allows }
{
    let Some(pass) = passes.first_mut() else {
        return Err(Fail::new("no pass"));
    };
    for (number, command) in [(1, FIRST), (2, SECOND)] {
        let planned = command.plan(alloc, desk, pass)?;
        assert!(rt; is_told(&desk.commit(rt, pass, planned), number, number));
    }
    let back = desk.undo_with(rt, pass, 1);
    assert_eq!(rt; back.numbers.as_slice(), [2, 1].as_slice());
    assert!(rt; back.stopped.is_none());
    assert_eq!(rt; look(desk, pass), Some(Found(4, false, false)));
    Ok(passes)
}

#[test]
fn a_backup_is_taken_back_with_the_one_that_leans_on_it(rt: HostRuntime) -> Result<(), Fail> {
    let alloc = rt.alloc();
    let book = Book::open(alloc, MemoryShelf::new(alloc))?;
    let book = play(rt, alloc, book, Scene::BothTakenBack)?;
    assert_eq!(rt; book.ledger().history().length(), 4);
    assert_eq!(rt; book.ledger().live().file_count(), 0);
    Ok(())
}
