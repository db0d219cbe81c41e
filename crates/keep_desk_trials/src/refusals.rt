ghost use Rattle.keep_book.specs.Armed.{HasSums};
ghost use Rattle.keep_register.specs.Allowed.{AllowsAll};

use crate::adding::{Adding, is_refused, is_told};
use crate::desk_looks::{Found, look};
use crate::desks::{Scene, play};
use keep_book::Book;
use keep_change::{Outline, Planned, What};
use keep_desk::{Desk, DeskError, Locked, Pass};
use keep_hooks::{AskOutline, Limit, Veto};
use keep_ledger::{Refusal, Told};
use keep_register::{Keeper, Naming};
use keep_shelf::MemoryShelf;
use std::alloc::{AllocError, Global};
use std::process::Abort;
use std::sync::Wait;
use std::test::Fail;

/// The name of the veto that lets no emptying pass.
const NO_EMPTY: &str = "no-empty";

/// Adds `b` where nothing has happened.
fn strict_add(alloc: Global) -> Result<Planned, AllocError> {
    let mut planned = Adding { alloc, byte: b'b' }.planned(0)?;
    planned.change.strict = true;
    Ok(planned)
}

/// Whether the veto refused this.
fn is_vetoed(reply: &Result<Told, DeskError>) -> bool {
    match reply {
        Err(DeskError::Refused(Refusal::Vetoed(veto))) => veto.as_str() == NO_EMPTY,
        _ => false,
    }
}

/// One operator adds `a`, then comes late with a strict change, and makes final what a veto doesn't let it. The other
/// never comes.
pub fn refused_twice<N: Naming, R: Abort + Wait + Drop, K: Keeper>(
    rt: &R,
    alloc: Global,
    desk: &Desk<N, Locked<N, R, K>>,
    mut passes: Vec<Pass<N>>,
) -> Result<Vec<Pass<N>>, Fail>
    requires { AllowsAll N.allows }
{
    let Some(pass) = passes.first_mut() else {
        return Err(Fail::new("no pass"));
    };
    let a = Adding { alloc, byte: b'a' };
    assert!(rt; is_told(&desk.commit(rt, pass, a.planned(0)?), 1, 1));
    let late = strict_add(alloc)?;
    assert!(rt; is_refused(&desk.commit(rt, pass, late), &Refusal::Stale(1)));
    assert!(rt; is_vetoed(&desk.empty(rt, pass, 1)));
    assert_eq!(rt; look(desk, pass), Some(Found(1, true, false)));
    Ok(passes)
}

/// Whether the veto is armed.
fn arms(book: &mut Book<MemoryShelf>, veto: Veto) -> bool
    requires { HasSums book.old }
    ensures { HasSums book.new }
{
    book.add_veto(veto).is_ok()
}

#[test]
fn what_is_stale_and_what_is_vetoed_is_told_so(rt: HostRuntime) -> Result<(), Fail> {
    let alloc = rt.alloc();
    let ask: AskOutline = Box::new(alloc, |outline: &Outline| outline.what == What::Empty)?;
    let veto = Veto::new(String::from_str(alloc, NO_EMPTY)?, Limit::NoEmpty, ask);
    let mut book = Book::open(alloc, MemoryShelf::new(alloc))?;
    assert!(rt; arms(&mut book, veto));
    let book = play(rt, alloc, book, Scene::RefusedTwice)?;
    assert_eq!(rt; book.ledger().history().length(), 1);
    Ok(())
}
