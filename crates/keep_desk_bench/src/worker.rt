ghost use Rattle.std.specs.Prelude.{◌≡◌, ◌*◌, IfSome};
ghost use Rattle.keep_register.specs.Allowed.{AllowsAll};

use crate::bench_crew::Crew;
use crate::bench_files::adding;
use crate::done::{Done, Start};
use keep_desk::{Desk, Locked, Pass};
use keep_register::{Keeper, Naming};
use std::alloc::Global;
use std::sync::Wait;
use std::sync::atomic::{AtomicUsize, Ordering};
use std::time::{Clock, CpuClock};

/// What all workers go by: who they are, and how many operators aren't done.
#[derive(Drop)]
pub(crate) struct Shift {
    pub alloc: Global,
    crew: Crew,
    left: AtomicUsize,
}

impl Shift {
    pub fn new(alloc: Global, crew: &Crew) -> Shift {
        Shift {
            alloc,
            crew: *crew,
            left: AtomicUsize::new(crew.operators),
        }
    }
}

/// A thread's pass, and what it did: none before it, or where it was refused.
#[derive(Drop)]
pub(crate) struct Worker<B: Naming> {
    pub pass: Pass<B>,
    pub done: Option<Done>,
}

impl<B: Naming> Worker<B> {
    /// Does what the thread of this place does.
    pub fn work<R, S, K>(
        &mut self,
        rt: &R,
        desk: &Desk<B, Locked<B, S, K>>,
        shift: &Shift,
        place: usize,
    )
    where
        R: Wait + Clock + CpuClock,
        S: Wait + Drop,
        K: Keeper,
        requires { AllowsAll B.allows }
    {
        let start = Start::now(rt);
        let count = if place < shift.crew.operators {
            let made = make_changes(rt, desk, &mut self.pass, shift, place);
            shift.left.fetch_sub(1, Ordering::SeqCst);
            made
        } else {
            read_views(desk, &mut self.pass, &shift.left)
        };
        self.done = match (start, count) {
            (Ok(start), Some(count)) => start.done(rt, count).ok(),
            _ => None,
        };
    }
}

/// Makes changes, each of one added file, and takes each back at once. How many events that was.
fn make_changes<B: Naming, R: Wait, S: Wait + Drop, K: Keeper>(
    rt: &R,
    desk: &Desk<B, Locked<B, S, K>>,
    pass: &mut Pass<B>,
    shift: &Shift,
    place: usize,
) -> Option<u64>
    requires { AllowsAll B.allows }
    ensures { IfSome result (λ events. events ≡ 2 * shift.now.crew.changes) }
{
    let changes = shift.crew.changes;
    for number in 0..changes {
        let planned = adding(shift.alloc, place, number).ok()?;
        let told = desk.commit(rt, pass, planned).ok()?;
        desk.undo(rt, pass, told.number).ok()?;
    }
    Some(2 * u64::from(changes))
}

/// Takes views as long as an operator is left, and looks at the length of each. How many that was.
fn read_views<B: Naming, L>(
    desk: &Desk<B, L>,
    pass: &mut Pass<B>,
    left: &AtomicUsize,
) -> Option<u64> {
    let mut length = 0;
    for views in 0..u64::MAX {
        if left.load(Ordering::SeqCst) == 0 {
            return Some(views);
        }
        let shown = desk.view(pass).ok()?;
        let now = shown.get().length();
        if now < length {
            return None;
        }
        length = now;
    }
    None
}
