ghost use Rattle.std.specs.Prelude.{◌≡◌, ◌+◌};
ghost use Rattle.keep_ledger.specs.Sums.{AreSums};
ghost use Rattle.keep_book.specs.Armed.{HasSums};
ghost use Rattle.keep_register.specs.Allowed.{AllowsAll};

use crate::bench_crew::{Crew, MOST};
use crate::bench_files::filled;
use crate::done::Done;
use crate::worker::{Shift, Worker};
use anyhow::{Result, anyhow};
use keep_book::Book;
use keep_chronicle::Opened;
use keep_desk::{Desk, Locked, Pass};
use keep_register::{Keeper, Naming};
use keep_shelf::Shelf;
use std::alloc::{AllocError, Global};
use std::marker::Brand;
use std::sync::Wait;
use std::sync::ledger::Blank;
use std::thread::{self, Threads};
use std::time::{Clock, CpuClock};

/// What each thread did, and how many events the book has in the end.
#[derive(Drop)]
pub(crate) struct Ran {
    pub done: Vec<Option<Done>>,
    pub length: u64,
}

/// Has the crew work at a desk over a book with files.
pub(crate) fn run<R>(rt: &R, alloc: Global, crew: &Crew) -> Result<Ran>
where
    R: Wait + Threads + Clock + CpuClock + Copy + Send + Sync,
{
    let Ok(book) = Book::open(alloc, filled(alloc)?) else {
        return Err(anyhow!("the shelf isn't opened"));
    };
    run_over(rt, alloc, book, crew)
}

/// Has the crew work at a desk over this book.
fn run_over<R, S>(rt: &R, alloc: Global, book: Book<S>, crew: &Crew) -> Result<Ran>
where
    R: Wait + Threads + Clock + CpuClock + Copy + Send + Sync,
    S: Shelf + Send,
    requires { HasSums book }
{
    let opened = Opened::new().ok_or(anyhow!("the list of events was begun"))?;
    let blank = Blank::new(crew.size() as u64);
    Ok(run_named::<Brand, R, Book<S>>(rt, alloc, book, opened, blank, crew)?)
}

/// Has the crew work at a desk over what is kept, which has this name, and closes it.
fn run_named<B, R, K>(
    rt: &R,
    alloc: Global,
    keeper: K,
    opened: Opened,
    blank: Blank,
    crew: &Crew,
) -> Result<Ran, AllocError>
where
    B: Naming + Send + Sync,
    R: Wait + Threads + Clock + CpuClock + Copy + Send + Sync,
    K: Keeper,
    requires history { opened.sight.book ≡ B.book }
    requires opening { K.ledger keeper ≡ B.opening }
    requires hooks { K.hooks keeper ≡ B.hooks }
    requires sums { AreSums (K.ledger keeper).events (K.hooks keeper).watches (K.tallies keeper) }
    requires counts { (blank.name ≡ B.name) × (blank.parts ≡ B.parts)
        × (blank.parts ≡ crew.now.operators + crew.now.readers) }
    requires allows { AllowsAll B.allows }
{
    let Ok((desk, passes)) = Desk::<B, Locked<B, R, K>>::open(
        alloc,
        *rt,
        keeper,
        opened,
        blank,
        crew.size(),
    ) else {
        return Err(AllocError);
    };
    let done = serve(rt, &desk, passes, &Shift::new(alloc, crew));
    let keeper = desk.close(Vec::new(alloc));
    Ok(Ran {
        done: done?,
        length: keeper.history().length(),
    })
}

/// Has each of the crew work, in a thread of its own.
///
/// Operators come first: where no thread can be made, all work one after another, and readers wait for operators.
fn serve<B, R, K>(
    rt: &R,
    desk: &Desk<B, Locked<B, R, K>>,
    passes: Vec<Pass<B>>,
    shift: &Shift,
) -> Result<Vec<Option<Done>>, AllocError>
where
    B: Naming + Send + Sync,
    R: Wait + Threads + Clock + CpuClock + Copy + Send + Sync,
    K: Keeper,
    requires { AllowsAll B.allows }
{
    let mut workers: Vec<Worker<B>> = passes
        .into_iter()
        .map(|pass| Worker { pass, done: None })
        .collect(shift.alloc)?;
    thread::for_each_mut(
        rt,
        workers.as_mut_slice(),
        MOST,
        &|place, worker|
            requires { AllowsAll B.allows }
        { worker.work(rt, desk, shift, place) },
    );
    workers
        .iter()
        .map(|worker| worker.done)
        .collect(shift.alloc)
}
