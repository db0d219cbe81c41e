ghost use Rattle.keep_register.specs.Allowed.{AllowsAll};

use crate::adding::{Adding, is_refused, is_told};
use crate::desk_looks::{Found, look};
use crate::desks::{Scene, play};
use keep_book::Book;
use keep_desk::{Desk, DeskError, Locked, Pass};
use keep_ledger::{Refusal, Told};
use keep_names::{FileName, id_of};
use keep_register::{Keeper, Naming};
use keep_repo::{Facet, Repo};
use keep_shelf::{FailingShelf, Key, MemoryShelf, Shelf};
use std::alloc::{AllocError, Global};
use std::process::Abort;
use std::sync::Wait;
use std::test::Fail;

/// What is asked of a desk. An add is of one byte.
#[derive(Clone, Copy)]
enum Ask {
    Add(u8),
    Undo(u64),
    Redo(u64),
    Empty(u64),
}

impl Ask {
    fn of<N: Naming, R: Wait + Drop, K: Keeper>(
        self,
        rt: &R,
        alloc: Global,
        desk: &Desk<N, Locked<N, R, K>>,
        pass: &mut Pass<N>,
    ) -> Result<Result<Told, DeskError>, AllocError>
        requires { AllowsAll N.allows }
    {
        Ok(match self {
            Ask::Add(byte) => desk.commit(rt, pass, Adding { alloc, byte }.planned(0)?),
            Ask::Undo(n) => desk.undo(rt, pass, n),
            Ask::Redo(n) => desk.redo(rt, pass, n),
            Ask::Empty(n) => desk.empty(rt, pass, n),
        })
    }

    /// Why it is refused once it was done.
    fn refusal_once_done(self) -> Refusal {
        match self {
            Ask::Add(byte) => Refusal::Unmet(Facet::File(FileName::index(id_of(&[byte])))),
            Ask::Undo(_) => Refusal::NotInForce,
            Ask::Redo(_) => Refusal::InForce,
            Ask::Empty(_) => Refusal::Final,
        }
    }
}

/// What is asked, the change that it is about, and what is shown once it is done.
#[derive(Clone, Copy)]
struct Step(Ask, u64, Found);

const STEPS: [Step; 5] = [
    Step(Ask::Add(b'a'), 1, Found(1, true, false)),
    Step(Ask::Add(b'b'), 2, Found(2, true, true)),
    Step(Ask::Undo(1), 1, Found(3, false, true)),
    Step(Ask::Redo(1), 1, Found(4, true, true)),
    Step(Ask::Empty(1), 1, Found(5, true, true)),
];

/// The calls of the shelf, from the second on: the first lists its keys. Of each the step that makes it, from 0, and
/// whether the event of that is in where it fails.
const CALLS: [(u64, usize, bool); 13] = [
    // its entry, and the file
    (2, 0, false),
    (3, 0, true),
    (4, 1, false),
    (5, 1, true),
    // its entry, and the file goes to the trash
    (6, 2, false),
    (7, 2, true),
    // the file in the trash is read; its entry, and the file comes back
    (8, 3, false),
    (9, 3, false),
    (10, 3, true),
    // its entry; those of the commit, the undo and the redo are erased
    (11, 4, false),
    (12, 4, true),
    (13, 4, true),
    (14, 4, true),
];

/// The steps, where this call of the shelf fails: one that this step makes.
#[derive(Clone, Copy)]
pub struct Failing {
    call: u64,
    step: usize,
    /// Whether the event of the step is in then.
    is_in: bool,
    /// Whether all calls that follow it fail too.
    onward: bool,
}

impl Failing {
    /// The answer to the step, where it was done or was not begun.
    fn refusal(&self, number: u64) -> Refusal {
        if self.is_in {
            Refusal::Unsettled(number)
        } else {
            Refusal::Fault
        }
    }

    /// Whether the step is answered so where it is asked for a second time.
    fn is_second_answer(&self, step: Step, reply: &Result<Told, DeskError>) -> bool {
        let Step(ask, number, after) = step;
        if self.onward || self.is_in {
            self.is_third_answer(ask, reply)
        } else {
            is_told(reply, number, after.0)
        }
    }

    /// Whether it is where it is asked for a third time.
    fn is_third_answer(&self, ask: Ask, reply: &Result<Told, DeskError>) -> bool {
        if self.onward {
            is_refused(reply, &Refusal::Fault)
        } else {
            is_refused(reply, &ask.refusal_once_done())
        }
    }

    /// Makes the steps before, and answers what is shown then.
    fn begin<N: Naming, R: Abort + Wait + Drop, K: Keeper>(
        &self,
        rt: &R,
        alloc: Global,
        desk: &Desk<N, Locked<N, R, K>>,
        pass: &mut Pass<N>,
    ) -> Result<Found, AllocError>
        requires { AllowsAll N.allows }
    {
        let mut shown = Found(0, false, false);
        for Step(ask, number, after) in STEPS.into_iter().take(self.step) {
            let reply = ask.of(rt, alloc, desk, pass)?;
            assert!(rt; is_told(&reply, number, after.0), "at call {}", self.call);
            shown = after;
        }
        Ok(shown)
    }

    /// Plays the steps, and sees that each answer and what is shown then is as it is to be.
    pub fn play<N: Naming, R: Abort + Wait + Drop, K: Keeper>(
        &self,
        rt: &R,
        alloc: Global,
        desk: &Desk<N, Locked<N, R, K>>,
        mut passes: Vec<Pass<N>>,
    ) -> Result<Vec<Pass<N>>, Fail>
        requires { AllowsAll N.allows }
    {
        let (Some(mut other), Some(mut pass)) = (passes.pop(), passes.pop()) else {
            return Err(Fail::new("no two passes"));
        };
        let Some(step) = STEPS.get(self.step).copied() else {
            return Err(Fail::new("no such step"));
        };
        let call = self.call;
        let before = self.begin(rt, alloc, desk, &mut pass)?;
        let Step(ask, number, after) = step;
        let reply = ask.of(rt, alloc, desk, &mut pass)?;
        assert!(rt; is_refused(&reply, &self.refusal(number)), "at call {call}");
        let shown = if self.is_in { after } else { before };
        assert_eq!(rt; look(desk, &mut pass), Some(shown), "at call {call}");
        assert_eq!(rt; look(desk, &mut other), Some(shown), "at call {call}");
        let reply = ask.of(rt, alloc, desk, &mut other)?;
        assert!(rt; self.is_second_answer(step, &reply), "after call {call}");
        let reply = ask.of(rt, alloc, desk, &mut pass)?;
        assert!(rt; self.is_third_answer(ask, &reply), "after call {call}");
        let shown = if self.onward { shown } else { after };
        assert_eq!(rt; look(desk, &mut pass), Some(shown), "after call {call}");
        passes.push(pass)?;
        passes.push(other)?;
        Ok(passes)
    }
}

/// The live files that stand on the shelf, as a repository without marks.
fn files_on(alloc: Global, shelf: &MemoryShelf) -> Result<Repo, Fail> {
    let mut shelf = shelf.copy()?;
    let mut repo = Repo::new(alloc);
    for key in shelf.list()? {
        let Key::Live(name) = key else {
            continue;
        };
        if let Some(rope) = shelf.read(key)? {
            repo.insert_file(name, rope.bytes(alloc)?)?;
        }
    }
    Ok(repo)
}

#[test]
fn each_call_of_the_shelf_fails_once(rt: HostRuntime) -> Result<(), Fail> {
    let alloc = rt.alloc();
    for (call, step, is_in) in CALLS {
        let shelf = FailingShelf::once(MemoryShelf::new(alloc), call);
        let book = Book::open(alloc, shelf)?;
        let failing = Failing {
            call,
            step,
            is_in,
            onward: false,
        };
        let book = play(rt, alloc, book, Scene::Failing(failing))?;
        let files = files_on(alloc, book.ledger().shelf().inner())?;
        assert!(rt; files.same_as(book.ledger().live()), "after call {call}");
    }
    Ok(())
}

#[test]
fn the_shelf_fails_from_each_call_on(rt: HostRuntime) -> Result<(), Fail> {
    let alloc = rt.alloc();
    for (call, step, is_in) in CALLS {
        let shelf = FailingShelf::onward(MemoryShelf::new(alloc), call);
        let book = Book::open(alloc, shelf)?;
        let failing = Failing {
            call,
            step,
            is_in,
            onward: true,
        };
        play(rt, alloc, book, Scene::Failing(failing))?;
    }
    Ok(())
}
