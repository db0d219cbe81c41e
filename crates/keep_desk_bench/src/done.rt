ghost use Rattle.std.specs.Prelude.{◌≡◌, IfOk};

use std::io;
use std::time::{Clock, CpuClock, Duration, Instant};

/// How much a thread did, and how long it took: by the clock, and of a processor.
#[derive(Clone, Copy)]
pub(crate) struct Done {
    pub count: u64,
    pub clock: Duration,
    pub processor: Duration,
}

/// When a thread began.
#[derive(Clone, Copy)]
pub(crate) struct Start {
    clock: Instant,
    processor: Duration,
}

impl Start {
    pub fn now(rt: &(impl Clock + CpuClock)) -> io::Result<Start> {
        Ok(Start {
            clock: Instant::now(rt)?,
            processor: rt.thread_cpu_time()?,
        })
    }

    /// So much was done since.
    pub fn done(&self, rt: &(impl Clock + CpuClock), count: u64) -> io::Result<Done>
        ensures { IfOk result (λ done. done.count ≡ count) }
    {
        Ok(Done {
            count,
            clock: self.clock.elapsed(rt)?,
            processor: rt.thread_cpu_time()?.saturating_sub(self.processor),
        })
    }
}
