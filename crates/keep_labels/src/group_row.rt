ghost use Rattle.std.specs.Prelude.{◌≡◌};
ghost use Rattle.keep_snap.specs.Facts.{facts_view};
ghost use Rattle.keep_labels.specs.Walk.{seen_view};

use keep_snap::{SnapFacts, Time};

/// A snapshot, the number of its group, and its time, so that a sort goes over numbers that lie side by side.
#[derive(Clone, Copy)]
pub(crate) struct Row<'a> {
    pub(crate) group: usize,
    pub(crate) time: Time,
    pub(crate) facts: &'a SnapFacts,
    ghost dated: { (time.instant ≡ facts.now.instant) × (time.day ≡ facts.now.day) × (time.week ≡ facts.now.week)
        × (time.month ≡ facts.now.month) × (time.year ≡ facts.now.year) },
}

impl<'a> Row<'a> {
    pub(crate) fn new(group: usize, facts: &'a SnapFacts) -> Row<'a>
        ensures group { result.group ≡ group }
        ensures facts { seen_view result.facts ≡ facts_view facts.now }
    {
        let time = Time {
            instant: facts.instant,
            day: facts.day,
            week: facts.week,
            month: facts.month,
            year: facts.year,
        };
        Row { group, time, facts }
    }
}
