use crate::counts::{Counts, line};
use std::alloc::AllocError;
use std::io::IsTerminal;
use std::time::{Clock, Duration};

/// For how many milliseconds a line stands at least before the next one takes its place.
const TURN: u128 = 250;

/// Counts what work comes to, and says it on standard error, where that is a terminal: four times a second at most. The
/// line is gone again with the meter.
pub struct Meter<'a> {
    rt: &'a HostRuntime,
    verb: &'static str,
    /// What is counted beside bytes.
    unit: &'static str,
    /// Whether anything is said.
    is_heard: bool,
    began: Duration,
    said: Duration,
    counts: Counts,
}

impl<'a> Meter<'a> {
    ghost use Rattle.std.specs.Prelude.{◌≡◌};
    ghost use Rattle.keep_progress.specs.Line.{with_bytes, with_item};

    /// Nothing is counted yet of the work that goes by this verb, in items of this unit.
    pub fn new(rt: &'a HostRuntime, verb: &'static str, unit: &'static str) -> Meter<'a> {
        let began = now(rt);
        Meter {
            rt,
            verb,
            unit,
            is_heard: rt.stderr().is_terminal(),
            began,
            said: began,
            counts: Counts {
                items: 0,
                bytes: 0,
                total: None,
            },
        }
    }

    /// The work is to come to so many bytes.
    pub fn expect(&mut self, bytes: u64)
        ensures { self.new.counts ≡ record self.old.counts { total = Some bytes } }
    {
        self.counts.total = Some(bytes);
    }

    /// One more item.
    pub fn count_item(&mut self)
        ensures { self.new.counts ≡ with_item self.old.counts }
    {
        self.counts = self.counts.with_item();
        self.say();
    }

    /// So many more bytes.
    pub fn count_bytes(&mut self, more: usize)
        ensures { self.new.counts ≡ with_bytes self.old.counts more }
    {
        self.counts = self.counts.with_bytes(more);
        self.say();
    }

    /// Says what it came to, where the line that stands has stood for its time.
    fn say(&mut self)
        ensures { self.new.counts ≡ self.old.counts }
    {
        if !self.is_heard {
            return;
        }
        let moment = now(self.rt);
        if moment.saturating_sub(self.said).as_millis() >= TURN {
            self.said = moment;
            let _said = self.write(moment.saturating_sub(self.began));
        }
    }

    /// Writes the line in the place of the one before it. Where it can't be written, the work goes on.
    fn write(&self, took: Duration) -> Result<(), AllocError> {
        let millis = u64::try_from(took.as_millis()).unwrap_or(u64::MAX);
        let text = line(self.rt.alloc(), self.verb, self.unit, self.counts, millis)?;
        let _written = eprint!(self.rt; "\r{text}\u{1b}[K");
        Ok(())
    }
}

impl Drop for Meter<'_> {
    fn drop(self) {
        if self.said > self.began {
            let _written = eprint!(self.rt; "\r\u{1b}[K");
        }
        let Meter {
            rt: _,
            verb: _,
            unit: _,
            is_heard: _,
            began: _,
            said: _,
            counts: _,
        } = self;
    }
}

/// The time on a clock that is never set, 0 where it can't be read.
fn now(rt: &HostRuntime) -> Duration {
    rt.monotonic().unwrap_or(Duration::ZERO)
}
