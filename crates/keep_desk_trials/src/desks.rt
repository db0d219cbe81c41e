ghost use Rattle.std.specs.Prelude.{◌≡◌, ◌<◌, ◌≤◌};
ghost use Rattle.keep_book.specs.Armed.{HasSums};
ghost use Rattle.keep_ledger.specs.Sums.{AreSums};
ghost use Rattle.keep_register.specs.Allowed.{AllowsAll};

use crate::cascades::both_taken_back;
use crate::crews::{all_at_once, both_at_once, last_first};
use crate::failing_calls::Failing;
use crate::refusals::refused_twice;
use crate::sweeps::{emptied_under_marks, swept_too_late};
use crate::turns::{one_at_a_time, one_goes_on, one_pass_lost};
use keep_book::Book;
use keep_chronicle::Opened;
use keep_desk::{Desk, Locked, Pass};
use keep_register::{Keeper, Naming};
use keep_shelf::Shelf;
use std::alloc::Global;
use std::marker::Brand;
use std::process::Abort;
use std::sync::Wait;
use std::sync::ledger::Blank;
use std::test::Fail;
use std::thread::Threads;
use std::time::Clock;

/// What operators do at a desk.
#[derive(Clone, Copy)]
pub enum Scene {
    /// One operator adds `a`, takes it back, adds it again, and makes that final. The other never comes.
    OneAtATime,
    /// One operator adds `b` to a book that has `a`, which is shown first. The other never comes.
    OneGoesOn,
    /// Each operator adds a file, and is shown what the other did. The second pass is lost.
    OnePassLost,
    /// One operator adds `a`, then comes late with a strict change, and makes final what a veto doesn't let it. The other
    /// never comes.
    RefusedTwice,
    /// One operator plans a sweep, and then the other one backs up what would be swept.
    SweptTooLate,
    /// One operator makes all changes final where packs have marks, and then takes a view. The other never comes.
    EmptiedUnderMarks,
    /// One operator makes two backups, and takes the first back with what leans on it. The other never comes.
    BothTakenBack,
    /// Two operators in threads add `a` and `b`, and neither begins before both have come.
    BothAtOnce,
    /// Two operators in threads add `a` and `b`, and the first doesn't begin before the second is done.
    LastFirst,
    /// Eight operators in threads find nothing to do, and none begins before all have come.
    AllAtOnce,
    Failing(Failing),
}

impl Scene {
    /// How many passes the desk has.
    fn passes(self) -> usize
        ensures { (0 < result) × (result ≤ 64) }
    {
        match self {
            Scene::AllAtOnce => 8,
            _ => 2,
        }
    }
}

/// Opens a desk over the book, and gives the book back once the scene was played there.
pub fn play<R: Abort + Wait + Threads + Clock + Send + Sync + Copy + Drop, S: Shelf + Send>(
    rt: R,
    alloc: Global,
    book: Book<S>,
    scene: Scene,
) -> Result<Book<S>, Fail>
    requires { HasSums book }
{
    let Some(opened) = Opened::new() else {
        return Err(Fail::new("no list of events can be begun"));
    };
    let passes = scene.passes();
    let blank = Blank::new(passes as u64);
    play_named::<Brand, R, Book<S>>(rt, alloc, book, opened, blank, passes, scene)
}

fn play_named<
    N: Naming + Send + Sync,
    R: Abort + Wait + Threads + Clock + Send + Sync + Copy + Drop,
    K: Keeper,
>(
    rt: R,
    alloc: Global,
    keeper: K,
    opened: Opened,
    blank: Blank,
    passes: usize,
    scene: Scene,
) -> Result<K, Fail>
    requires history { opened.sight.book ≡ N.book }
    requires opening { K.ledger keeper ≡ N.opening }
    requires hooks { K.hooks keeper ≡ N.hooks }
    requires sums { AreSums (K.ledger keeper).events (K.hooks keeper).watches (K.tallies keeper) }
    requires counts { (blank.name ≡ N.name) × (blank.parts ≡ N.parts) × (blank.parts ≡ passes) }
    requires passes { (0 < passes) × (passes ≤ 64) }
    requires allows { AllowsAll N.allows }
{
    let made = Desk::<N, Locked<N, R, K>>::open(alloc, rt, keeper, opened, blank, passes);
    let Ok((desk, passes)) = made else {
        return Err(Fail::new("the desk isn't opened"));
    };
    match play_at(&rt, alloc, &desk, passes, scene) {
        Ok(passes) => Ok(desk.close(passes)),
        Err(failure) => {
            drop(desk.close(Vec::new(alloc)));
            Err(failure)
        }
    }
}

/// Gives back the passes that are handed in where the desk is closed.
fn play_at<
    N: Naming + Send + Sync,
    R: Abort + Wait + Threads + Clock + Send + Sync + Drop,
    K: Keeper,
>(
    rt: &R,
    alloc: Global,
    desk: &Desk<N, Locked<N, R, K>>,
    passes: Vec<Pass<N>>,
    scene: Scene,
) -> Result<Vec<Pass<N>>, Fail>
    requires { AllowsAll N.allows }
{
    match scene {
        Scene::OneAtATime => one_at_a_time(rt, alloc, desk, passes),
        Scene::OneGoesOn => one_goes_on(rt, alloc, desk, passes),
        Scene::OnePassLost => one_pass_lost(rt, alloc, desk, passes),
        Scene::RefusedTwice => refused_twice(rt, alloc, desk, passes),
        Scene::SweptTooLate => swept_too_late(rt, alloc, desk, passes),
        Scene::EmptiedUnderMarks => emptied_under_marks(rt, alloc, desk, passes),
        Scene::BothTakenBack => both_taken_back(rt, alloc, desk, passes),
        Scene::BothAtOnce => both_at_once(rt, alloc, desk, passes),
        Scene::LastFirst => last_first(rt, alloc, desk, passes),
        Scene::AllAtOnce => all_at_once(rt, alloc, desk, passes),
        Scene::Failing(failing) => failing.play(rt, alloc, desk, passes),
    }
}
