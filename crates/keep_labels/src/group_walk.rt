ghost use Rattle.std.specs.Prelude.{◌≡◌, IfOk, map};
ghost use Rattle.std.specs.Ordering.{nat_cmp, on, then_cmp};
ghost use Rattle.keep_labels.specs.Orders.{period_cmp, sorting_cmp};
ghost use Rattle.keep_labels.specs.Walk.{Rises, follows, names_counted, seen_view};
ghost use Rattle.keep_labels.specs.declared.group_row.Row as the_row;

use crate::count::Count;
use crate::group_row::Row;
use crate::groups::Rows;
use crate::order::{Counted, compare_later_first};
use keep_names::Id;
use std::alloc::{AllocError, Global};

/// The names of those that a count keeps: the first of each of the first so many periods of a group. They stand
/// by group, by period, and in a period the newest first.
pub(crate) fn first_names(
    alloc: Global,
    counted: Counted,
    most: Count,
    sorted: &Rows,
) -> Result<Vec<Id>, AllocError>
    requires { Rises (sorting_cmp counted) (map (λ row. seen_view row.facts) sorted.now.items.items) }
    ensures { IfOk result (λ names. names.items
        ≡ names_counted counted most.number (map (λ row. seen_view row.facts) sorted.now.items.items)) }
{
    let mut names = Vec::new(alloc);
    let mut last: Option<Row> = None;
    let mut count = 0usize;
    for row in &sorted.items {
        let is_later = !is_of_group(last, row);
        let is_first = !is_of_period(counted, last, row);
        let before = if is_later { 0 } else { count };
        if is_first && before < most.get() as usize {
            names.push(row.facts.name)?;
        }
        count = if is_first { before + 1 } else { before };
        last = Some(*row);
    }
    Ok(names)
}

/// Whether the last one is of the same group.
fn is_of_group(last: Option<Row>, row: &Row) -> bool
    ensures { result ≡ follows (on (λ (r : the_row.Row). r.group) nat_cmp) last.entry row.now }
{
    match last {
        Some(last) => last.group.cmp(&row.group).is_eq(),
        None => false,
    }
}

/// Whether the last one is of the same group and period.
fn is_of_period(counted: Counted, last: Option<Row>, row: &Row) -> bool
    ensures { result ≡ follows (then_cmp (on (λ (r : the_row.Row). r.group) nat_cmp)
        (on (λ (r : the_row.Row). seen_view r.facts) (period_cmp counted))) last.entry row.now }
{
    match last {
        Some(last) => compare_later_first(counted, &last, row).is_eq(),
        None => false,
    }
}
