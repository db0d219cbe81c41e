ghost use Rattle.std.specs.Prelude.{◌≡◌, All, IfOk, IsPermutation, map};
ghost use Rattle.std.specs.List.Sorted.{IsSortedByKey};
ghost use Rattle.std.specs.Ordering.{nat_cmp};
ghost use Rattle.keep_snap.specs.Facts.{facts_view};
ghost use Rattle.keep_labels.specs.Keeping.{EachOnce};
ghost use Rattle.keep_labels.specs.Orders.{group_cmp};
ghost use Rattle.keep_labels.specs.Walk.{seen_view};
ghost use Rattle.std.proofs.Props.{props};

use crate::group_row::Row;
use crate::order::{compare_groups, is_of_group};
use keep_snap::SnapFacts;
use std::alloc::{AllocError, Global};

/// Snapshots as rows. The numbers of two of them compare as their groups do.
#[derive(Drop)]
pub(crate) struct Rows<'a> {
    pub(crate) items: Vec<Row<'a>>,
    ghost grouped: { All (λ a. All (λ b. nat_cmp a.group b.group
        ≡ group_cmp (seen_view a.facts) (seen_view b.facts)) items.items) items.items } by { Prim.hlevel props },
}

/// The snapshots as rows, by group.
pub(crate) fn rows_of(alloc: Global, taken: &[SnapFacts]) -> Result<Rows<'_>, AllocError>
    requires { EachOnce (map facts_view taken.now) }
    ensures same { IfOk result (λ rows. IsPermutation (map facts_view taken.entry.now)
        (map (λ row. seen_view row.facts) rows.items.items)) }
    ensures once { IfOk result (λ rows. EachOnce (map (λ row. seen_view row.facts) rows.items.items)) }
{
    let sorted = by_group(alloc, taken)?;
    let rows = numbered(alloc, &sorted)?;
    Ok(rows)
}

/// The snapshots by group. Only here are hosts and paths compared.
fn by_group<'a>(alloc: Global, taken: &'a [SnapFacts]) -> Result<Vec<&'a SnapFacts>, AllocError>
    ensures sorted { IfOk result (λ sorted. IsSortedByKey seen_view group_cmp sorted.items) }
    ensures same { IfOk result (λ sorted. IsPermutation (map facts_view taken.entry.now) (map seen_view sorted.items)) }
{
    let mut sorted = references(alloc, taken)?;
    sorted.sort_by(|left, right| compare_groups(left, right))?;
    Ok(sorted)
}

fn references<'a>(alloc: Global, taken: &'a [SnapFacts]) -> Result<Vec<&'a SnapFacts>, AllocError>
    ensures { IfOk result (λ all. map seen_view all.items ≡ map facts_view taken.entry.now) }
{
    let mut all = Vec::with_capacity(alloc, taken.len())?;
    for facts in taken {
        all.push(facts)?;
    }
    Ok(all)
}

/// Each with the number of its group, from 1 on.
fn numbered<'a>(alloc: Global, sorted: &[&'a SnapFacts]) -> Result<Rows<'a>, AllocError>
    requires { IsSortedByKey seen_view group_cmp sorted.now }
    ensures { IfOk result (λ rows. map (λ row. seen_view row.facts) rows.items.items ≡ map seen_view sorted.now) }
{
    let mut items = Vec::with_capacity(alloc, sorted.len())?;
    let mut last: Option<&SnapFacts> = None;
    let mut group = 0usize;
    for facts in sorted {
        group = if is_of_group(last, facts) {
            group
        } else {
            group + 1
        };
        items.push(Row::new(group, facts))?;
        last = Some(facts);
    }
    Ok(Rows { items })
}
