use crate::watch::Watch;
use keep_change::Outline;

/// A watch that is armed, the length of the history at which it was, and the sum of what it counted since.
#[derive(Drop)]
pub struct ArmedWatch {
    watch: Watch,
    since: u64,
    total: u64,
}

impl ArmedWatch {
    ghost use Rattle.std.specs.Prelude.{◌≡◌, ◌^◌, ◌≤◌};
    ghost use Rattle.keep_hooks.specs.Guards.{HasRoom, tally_after, untold};
    ghost use Rattle.keep_hooks.specs.Rules.{armed_at, armed_of, tally_of, watch_of};
    ghost use Rattle.keep_hooks.specs.Written.{name_count};

    /// The watch, armed at this length of the history: it was told of no event yet.
    pub fn new(watch: Watch, since: u64) -> ArmedWatch
        ensures armed { armed_of result ≡ armed_at since (watch_of watch) }
        ensures untold { tally_of result ≡ untold (watch_of watch) }
    {
        ArmedWatch {
            watch,
            since,
            total: 0,
        }
    }

    pub fn name(&self) -> &str
        ensures { result.now ≡ (armed_of self.now).name }
    {
        self.watch.name()
    }

    pub fn total(&self) -> u64
        ensures { result ≡ (tally_of self.now).total }
    {
        self.total
    }

    /// Adds to the total what the event counts for.
    pub fn tell(&mut self, outline: &Outline)
        requires small { HasRoom (tally_of self.old) }
        requires few { name_count outline.now ≤ 2 ^ 20 }
        ensures armed { armed_of self.new ≡ armed_of self.old }
        ensures told { tally_of self.new ≡ tally_after outline.now (tally_of self.old) }
    {
        self.total += self.watch.count(outline);
    }
}
