use keep_desk::Gate;
use std::sync::atomic::{AtomicBool, AtomicU64, Ordering};
use std::thread;
use std::time::{Clock, Duration};

/// How often a gate looks, once a millisecond, before it gives up.
const MOST_TURNS: u64 = 10_000;

/// How many milliseconds a worker lingers.
const LINGERED: u64 = 200;

/// What the workers of two jobs have told.
#[derive(Drop)]
pub struct Signals<C: Clock> {
    clock: C,
    first: AtomicBool,
    second: AtomicBool,
    given_up: AtomicU64,
}

impl<C: Clock> Signals<C> {
    pub fn new(clock: C) -> Signals<C> {
        Signals {
            clock,
            first: AtomicBool::new(false),
            second: AtomicBool::new(false),
            given_up: AtomicU64::new(0),
        }
    }

    /// How often a worker went on without what it waited for.
    pub fn given_up(&self) -> u64 {
        self.given_up.load(Ordering::SeqCst)
    }

    /// That of the worker at this place.
    fn of(&self, place: usize) -> &AtomicBool {
        if place == 0 {
            &self.first
        } else {
            &self.second
        }
    }

    fn give(&self, place: usize) {
        self.of(place).store(true, Ordering::SeqCst);
    }

    fn wait_for(&self, place: usize) {
        for _ in 0..MOST_TURNS {
            if self.of(place).load(Ordering::SeqCst) {
                return;
            }
            thread::sleep(&self.clock, Duration::from_millis(1));
        }
        self.given_up.fetch_add(1, Ordering::SeqCst);
    }
}

/// Neither job is begun before both workers have come.
#[derive(Drop)]
pub struct Together<C: Clock>(pub Signals<C>);

impl<C: Clock> Gate for Together<C> {
    fn before(&self, place: usize) {
        self.0.give(place);
        self.0.wait_for(if place == 0 { 1 } else { 0 });
    }

    fn after(&self, _place: usize) {}
}

/// No job is begun before so many workers have come.
#[derive(Drop)]
pub struct AllTogether<C: Clock> {
    clock: C,
    wanted: u64,
    come: AtomicU64,
    given_up: AtomicU64,
}

impl<C: Clock> AllTogether<C> {
    pub fn new(clock: C, wanted: u64) -> AllTogether<C> {
        AllTogether {
            clock,
            wanted,
            come: AtomicU64::new(0),
            given_up: AtomicU64::new(0),
        }
    }

    /// How often a worker went on without the others.
    pub fn given_up(&self) -> u64 {
        self.given_up.load(Ordering::SeqCst)
    }
}

impl<C: Clock> Gate for AllTogether<C> {
    fn before(&self, _place: usize) {
        self.come.fetch_add(1, Ordering::SeqCst);
        for _ in 0..MOST_TURNS {
            if self.come.load(Ordering::SeqCst) >= self.wanted {
                return;
            }
            thread::sleep(&self.clock, Duration::from_millis(1));
        }
        self.given_up.fetch_add(1, Ordering::SeqCst);
    }

    fn after(&self, _place: usize) {}
}

/// The first job isn't begun before the second is done.
///
/// Who told of its job lingers. So where the second told of it too early, the first is done by the time that it begins.
#[derive(Drop)]
pub struct LastFirst<C: Clock>(pub Signals<C>);

impl<C: Clock> Gate for LastFirst<C> {
    fn before(&self, place: usize) {
        if place == 0 {
            self.0.wait_for(1);
        }
    }

    fn after(&self, place: usize) {
        self.0.give(place);
        thread::sleep(&self.0.clock, Duration::from_millis(LINGERED));
    }
}
