ghost use Rattle.keep_register.specs.Allowed.{AllowsAll};

use crate::adding::{is_refused, is_told};
use crate::commands::Command;
use crate::desk_looks::{Found, look};
use crate::desks::{Scene, play};
use keep_book::Book;
use keep_desk::{Desk, Locked, Pass};
use keep_ledger::Refusal;
use keep_names::parse_id;
use keep_register::{Keeper, Naming};
use keep_repo::Facet;
use keep_shelf::MemoryShelf;
use std::alloc::Global;
use std::process::Abort;
use std::sync::Wait;
use std::test::Fail;

const FIRST: Command<'static> = Command::Backup("2024-01-01T10:00:00Z", &["/a"], b"a");

const SECOND: Command<'static> = Command::Backup("2024-01-01T11:00:00Z", &["/a"], b"a");

/// The lesser of the two packs that a backup of `/a` with the byte `a` makes. It has that byte as its one blob:
/// `61`, its header of 37 bytes, `25000000`. The other has the tree.
const DATA_PACK: &str = "04bf9845e6551eb4582a32727faead99df8ae691180a42feb4fb3294a0e25c38";

/// One operator plans a sweep, and then the other one backs up what would be swept.
pub fn swept_too_late<N: Naming, R: Abort + Wait + Drop, K: Keeper>(
    rt: &R,
    alloc: Global,
    desk: &Desk<N, Locked<N, R, K>>,
    mut passes: Vec<Pass<N>>,
) -> Result<Vec<Pass<N>>, Fail>
    requires { AllowsAll N.allows }
{
    let (Some(mut second), Some(mut first)) = (passes.pop(), passes.pop()) else {
        return Err(Fail::new("no two passes"));
    };
    for (number, command) in [(1, FIRST), (2, Command::DropSnapshot), (3, Command::Mark)] {
        let planned = command.plan(alloc, desk, &mut first)?;
        assert!(rt; is_told(&desk.commit(rt, &mut first, planned), number, number));
    }
    let sweep = Command::Sweep.plan(alloc, desk, &mut first)?;
    let backup = SECOND.plan(alloc, desk, &mut second)?;
    assert!(rt; is_told(&desk.commit(rt, &mut second, backup), 4, 4));
    let unmet = Refusal::Unmet(Facet::Mark(parse_id(DATA_PACK)?));
    assert!(rt; is_refused(&desk.commit(rt, &mut first, sweep), &unmet));
    passes.push(first)?;
    passes.push(second)?;
    Ok(passes)
}

/// One operator makes all changes final where packs have marks, and then takes a view. The other never comes.
pub fn emptied_under_marks<N: Naming, R: Abort + Wait + Drop, K: Keeper>(
    rt: &R,
    alloc: Global,
    desk: &Desk<N, Locked<N, R, K>>,
    mut passes: Vec<Pass<N>>,
) -> Result<Vec<Pass<N>>, Fail>
    requires { AllowsAll N.allows }
{
    let Some(pass) = passes.first_mut() else {
        return Err(Fail::new("no pass"));
    };
    for (number, command) in [(1, FIRST), (2, Command::DropSnapshot), (3, Command::Mark)] {
        let planned = command.plan(alloc, desk, pass)?;
        assert!(rt; is_told(&desk.commit(rt, pass, planned), number, number));
    }
    assert!(rt; is_told(&desk.empty(rt, pass, 3), 3, 4));
    assert_eq!(rt; look(desk, pass), Some(Found(4, false, false)));
    Ok(passes)
}

#[test]
fn an_emptying_under_marks_is_published(rt: HostRuntime) -> Result<(), Fail> {
    let alloc = rt.alloc();
    let book = Book::open(alloc, MemoryShelf::new(alloc))?;
    let book = play(rt, alloc, book, Scene::EmptiedUnderMarks)?;
    assert_eq!(rt; book.ledger().history().length(), 4);
    assert!(rt; book.ledger().live().mark_count() > 0);
    Ok(())
}

#[test]
fn a_sweep_is_unmet_where_a_pack_is_used_again(rt: HostRuntime) -> Result<(), Fail> {
    let alloc = rt.alloc();
    let book = Book::open(alloc, MemoryShelf::new(alloc))?;
    let book = play(rt, alloc, book, Scene::SweptTooLate)?;
    assert_eq!(rt; book.ledger().history().length(), 4);
    assert_eq!(rt; book.ledger().live().file_count(), 4);
    assert_eq!(rt; book.ledger().live().mark_count(), 0);
    Ok(())
}
