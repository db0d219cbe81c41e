ghost use Rattle.std.specs.Prelude.{◌≡◌, option_map};
ghost use Rattle.std.specs.Ordering.{nat_cmp, ordering_then};
ghost use Rattle.keep_snap.specs.Facts.{facts_view};
ghost use Rattle.keep_labels.specs.Orders.{age_cmp, group_cmp, paths_cmp, period_cmp};
ghost use Rattle.keep_labels.specs.Walk.{follows, seen_view};

use crate::group_row::Row;
use keep_snap::SnapFacts;
use std::cmp::Ordering;

/// What a policy counts: snapshots, or the days, weeks, months or years that have one.
#[derive(Clone, Copy)]
pub(crate) enum Counted {
    Snapshots,
    Days,
    Weeks,
    Months,
    Years,
}

/// By host, and then by the list of paths.
pub(crate) fn compare_groups(left: &SnapFacts, right: &SnapFacts) -> Ordering
    ensures { result ≡ group_cmp (facts_view left.now) (facts_view right.now) }
{
    left.host.cmp(&right.host).then(compare_paths(left, right))
}

/// By the list of paths.
fn compare_paths(left: &SnapFacts, right: &SnapFacts) -> Ordering
    ensures { result ≡ paths_cmp (facts_view left.now) (facts_view right.now) }
{
    left.paths.cmp(&right.paths)
}

/// Whether the last one is of the same group.
pub(crate) fn is_of_group(last: Option<&SnapFacts>, facts: &SnapFacts) -> bool
    ensures { result ≡ follows group_cmp (option_map seen_view last.entry) (facts_view facts.now) }
{
    match last {
        Some(last) => compare_groups(last, facts).is_eq(),
        None => false,
    }
}

/// By the number of the group, and in a group the later period first.
pub(crate) fn compare_later_first(counted: Counted, left: &Row, right: &Row) -> Ordering
    ensures { result ≡ ordering_then (nat_cmp left.now.group right.now.group)
        (period_cmp counted (seen_view left.now.facts) (seen_view right.now.facts)) }
{
    left.group
        .cmp(&right.group)
        .then(compare_periods(counted, left, right))
}

/// By the number of the group, then the later period first, and in a period the newer first.
pub(crate) fn compare_all(counted: Counted, left: &Row, right: &Row) -> Ordering
    ensures { result ≡ ordering_then (ordering_then (nat_cmp left.now.group right.now.group)
        (period_cmp counted (seen_view left.now.facts) (seen_view right.now.facts)))
        (age_cmp (seen_view left.now.facts) (seen_view right.now.facts)) }
{
    compare_later_first(counted, left, right).then(compare_ages(left, right))
}

/// The later period first, by the written date.
fn compare_periods(counted: Counted, left: &Row, right: &Row) -> Ordering
    ensures { result ≡ period_cmp counted (seen_view left.now.facts) (seen_view right.now.facts) }
{
    match counted {
        Counted::Snapshots => compare_ages(left, right),
        Counted::Days => right.time.day.cmp(&left.time.day),
        Counted::Weeks => right.time.week.cmp(&left.time.week),
        Counted::Months => right.time.month.cmp(&left.time.month),
        Counted::Years => right.time.year.cmp(&left.time.year),
    }
}

/// The newer first, and of those of one instant the lesser name. The names are looked at only there.
fn compare_ages(left: &Row, right: &Row) -> Ordering
    ensures { result ≡ age_cmp (seen_view left.now.facts) (seen_view right.now.facts) }
{
    right
        .time
        .instant
        .cmp(&left.time.instant)
        .then_with(|| left.facts.name.cmp(&right.facts.name))
}
