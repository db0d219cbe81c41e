ghost use Rattle.keep_register.specs.Allowed.{AllowsAll};

use crate::adding::{Adding, is_refused, is_told};
use crate::desk_looks::{A, B, Found, has_index, look};
use crate::desks::{Scene, play};
use keep_book::Book;
use keep_desk::{Desk, Locked, Pass};
use keep_ledger::Refusal;
use keep_register::{Keeper, Naming};
use keep_shelf::MemoryShelf;
use std::alloc::Global;
use std::process::Abort;
use std::sync::Wait;
use std::test::Fail;

/// One operator adds `a`, takes it back, adds it again, and makes that final. The other never comes.
pub fn one_at_a_time<N: Naming, R: Abort + Wait + Drop, K: Keeper>(
    rt: &R,
    alloc: Global,
    desk: &Desk<N, Locked<N, R, K>>,
    mut passes: Vec<Pass<N>>,
) -> Result<Vec<Pass<N>>, Fail>
    requires { AllowsAll N.allows }
{
    let Some(pass) = passes.first_mut() else {
        return Err(Fail::new("no pass"));
    };
    let a = Adding { alloc, byte: b'a' };
    assert!(rt; is_told(&desk.commit(rt, pass, a.planned(0)?), 1, 1));
    assert_eq!(rt; look(desk, pass), Some(Found(1, true, false)));
    assert!(rt; is_told(&desk.undo(rt, pass, 1), 1, 2));
    assert!(rt; is_refused(&desk.undo(rt, pass, 1), &Refusal::NotInForce));
    assert!(rt; is_told(&desk.redo(rt, pass, 1), 1, 3));
    assert!(rt; is_told(&desk.empty(rt, pass, 1), 1, 4));
    Ok(passes)
}

#[test]
fn each_event_of_one_operator_is_told_at_its_place(rt: HostRuntime) -> Result<(), Fail> {
    let alloc = rt.alloc();
    let book = Book::open(alloc, MemoryShelf::new(alloc))?;
    let book = play(rt, alloc, book, Scene::OneAtATime)?;
    assert_eq!(rt; book.ledger().history().length(), 4);
    assert!(rt; has_index(book.ledger().live(), A, b"a"));
    Ok(())
}

/// One operator adds `b` to a book that has `a`, which is shown first. The other never comes.
pub fn one_goes_on<N: Naming, R: Abort + Wait + Drop, K: Keeper>(
    rt: &R,
    alloc: Global,
    desk: &Desk<N, Locked<N, R, K>>,
    mut passes: Vec<Pass<N>>,
) -> Result<Vec<Pass<N>>, Fail>
    requires { AllowsAll N.allows }
{
    let Some(pass) = passes.first_mut() else {
        return Err(Fail::new("no pass"));
    };
    assert_eq!(rt; look(desk, pass), Some(Found(1, true, false)));
    let b = Adding { alloc, byte: b'b' };
    assert!(rt; is_told(&desk.commit(rt, pass, b.planned(1)?), 2, 2));
    assert_eq!(rt; look(desk, pass), Some(Found(2, true, true)));
    Ok(passes)
}

#[test]
fn a_book_with_events_is_opened(rt: HostRuntime) -> Result<(), Fail> {
    let alloc = rt.alloc();
    let mut book = Book::open(alloc, MemoryShelf::new(alloc))?;
    book.commit(Adding { alloc, byte: b'a' }.planned(0)?)?;
    let book = play(rt, alloc, book, Scene::OneGoesOn)?;
    assert_eq!(rt; book.ledger().history().length(), 2);
    Ok(())
}

/// Each operator adds a file, and is shown what the other did. The second pass is lost.
pub fn one_pass_lost<N: Naming, R: Abort + Wait + Drop, K: Keeper>(
    rt: &R,
    alloc: Global,
    desk: &Desk<N, Locked<N, R, K>>,
    mut passes: Vec<Pass<N>>,
) -> Result<Vec<Pass<N>>, Fail>
    requires { AllowsAll N.allows }
{
    let (Some(mut second), Some(mut first)) = (passes.pop(), passes.pop()) else {
        return Err(Fail::new("no two passes"));
    };
    let a = Adding { alloc, byte: b'a' };
    let b = Adding { alloc, byte: b'b' };
    assert!(rt; is_told(&desk.commit(rt, &mut first, a.planned(0)?), 1, 1));
    assert_eq!(rt; look(desk, &mut second), Some(Found(1, true, false)));
    assert!(rt; is_told(&desk.commit(rt, &mut second, b.planned(1)?), 2, 2));
    assert_eq!(rt; look(desk, &mut first), Some(Found(2, true, true)));
    drop(second);
    passes.push(first)?;
    Ok(passes)
}

#[test]
fn what_a_lost_pass_did_is_in_the_book(rt: HostRuntime) -> Result<(), Fail> {
    let alloc = rt.alloc();
    let book = Book::open(alloc, MemoryShelf::new(alloc))?;
    let book = play(rt, alloc, book, Scene::OnePassLost)?;
    assert_eq!(rt; book.ledger().history().length(), 2);
    assert!(rt; has_index(book.ledger().live(), A, b"a"));
    assert!(rt; has_index(book.ledger().live(), B, b"b"));
    Ok(())
}
