ghost use Rattle.std.specs.Prelude.{◌≡◌, ◌||◌, IfOk, IsPermutation, OnOk, filter, map, not, option_map, string_bytes};
ghost use Rattle.std.specs.BTreeSet.{contains};
ghost use Rattle.keep_names.specs.Orders.{id_cmp};
ghost use Rattle.keep_names.specs.declared.id.Id as the_id;
ghost use Rattle.keep_snap.specs.Facts.{facts_view};
ghost use Rattle.keep_labels.specs.Forgetting as spec;
ghost use Rattle.keep_labels.specs.Keeping.{EachOnce, by_count, by_tag, dropped_names, has_passing, policy_view};
ghost use Rattle.keep_labels.specs.Orders.{sorting_cmp};
ghost use Rattle.keep_labels.specs.Walk.{Rises, seen_view};

use crate::count::Count;
use crate::edit::has_tag;
use crate::group_walk::first_names;
use crate::groups::{Rows, rows_of};
use crate::order::{Counted, compare_all};
use keep_names::Id;
use keep_snap::SnapFacts;
use std::alloc::{AllocError, Global};
use std::collections::BTreeSet;

/// Which snapshots are kept: what one of its counts or one of its tags keeps.
///
/// Snapshots of one host and one list of paths are a group. Of each group `last` keeps so many of the newest,
/// `daily` the newest of each of the last so many days that have one, and so on for weeks, months and years,
/// by the written date.
#[derive(Drop)]
pub struct Policy {
    pub last: Option<Count>,
    pub daily: Option<Count>,
    pub weekly: Option<Count>,
    pub monthly: Option<Count>,
    pub yearly: Option<Count>,
    /// A snapshot that has one of these is kept.
    pub tags: Vec<String>,
}

impl Policy {
    /// Whether it counts nothing and has no tag. It would keep nothing.
    pub(crate) fn has_no_rule(&self) -> bool
        ensures { result ≡ spec.has_no_rule (policy_view self.now) }
    {
        let by_count = self.last.is_some() || self.daily.is_some() || self.weekly.is_some();
        let by_month = self.monthly.is_some() || self.yearly.is_some();
        !by_count && !by_month && self.tags.is_empty()
    }
}

/// The names of the snapshots that the policy doesn't keep, in their order.
pub fn dropped(alloc: Global, policy: &Policy, taken: &[SnapFacts]) -> Result<Vec<Id>, AllocError>
    requires { EachOnce (map facts_view taken.now) }
    ensures { IfOk result (λ names. names.items ≡ dropped_names (policy_view policy.now) (map facts_view taken.now)) }
{
    let rows = rows_of(alloc, taken)?;
    let mut kept = BTreeSet::new(alloc);
    keep_counted(alloc, Counted::Snapshots, policy.last, &rows, &mut kept)?;
    keep_counted(alloc, Counted::Days, policy.daily, &rows, &mut kept)?;
    keep_counted(alloc, Counted::Weeks, policy.weekly, &rows, &mut kept)?;
    keep_counted(alloc, Counted::Months, policy.monthly, &rows, &mut kept)?;
    keep_counted(alloc, Counted::Years, policy.yearly, &rows, &mut kept)?;
    keep_tagged(&policy.tags, taken, &mut kept)?;
    others(alloc, taken, &kept)
}

/// Puts the names there of those that a count keeps.
fn keep_counted(
    alloc: Global,
    counted: Counted,
    most: Option<Count>,
    rows: &Rows,
    kept: &mut BTreeSet<Id>,
) -> Result<(), AllocError>
    requires { EachOnce (map (λ row. seen_view row.facts) rows.now.items.items) }
    ensures { let all = map (λ row. seen_view row.facts) rows.now.items.items in
        OnOk result ((name : the_id.Id) → contains id_cmp kept.new name ≡ (contains id_cmp kept.old name
        || has_passing (by_count counted (option_map (λ count. count.number) most) all) all name)) }
{
    let Some(most) = most else {
        return Ok(());
    };
    let sorted = in_order(alloc, counted, rows)?;
    let names = first_names(alloc, counted, most, &sorted)?;
    for name in &names {
        kept.insert(*name)?;
    }
    Ok(())
}

/// The rows by group, by period, and in a period the newest first.
fn in_order<'a>(alloc: Global, counted: Counted, rows: &Rows<'a>) -> Result<Rows<'a>, AllocError>
    requires { EachOnce (map (λ row. seen_view row.facts) rows.now.items.items) }
    ensures rises { IfOk result (λ sorted. Rises (sorting_cmp counted)
        (map (λ row. seen_view row.facts) sorted.items.items)) }
    ensures same { IfOk result (λ sorted. IsPermutation (map (λ row. seen_view row.facts) rows.now.items.items)
        (map (λ row. seen_view row.facts) sorted.items.items)) }
{
    let mut items = rows.items.to_vec(alloc)?;
    items.sort_by(|left, right| compare_all(counted, left, right))?;
    Ok(Rows { items })
}

/// Puts the names there of those that have one of the tags.
fn keep_tagged(
    tags: &[String],
    taken: &[SnapFacts],
    kept: &mut BTreeSet<Id>,
) -> Result<(), AllocError>
    ensures { OnOk result ((name : the_id.Id) → contains id_cmp kept.new name
        ≡ (contains id_cmp kept.old name || has_passing (by_tag (map string_bytes tags.now))
        (map facts_view taken.now) name)) }
{
    for facts in taken {
        if has_tag_of(tags, facts) {
            kept.insert(facts.name)?;
        }
    }
    Ok(())
}

fn has_tag_of(tags: &[String], facts: &SnapFacts) -> bool
    ensures { result ≡ by_tag (map string_bytes tags.now) (facts_view facts.now) }
{
    for tag in &facts.tags {
        if has_tag(tags, tag) {
            return true;
        }
    }
    false
}

/// The names of those whose name isn't there.
fn others(alloc: Global, taken: &[SnapFacts], kept: &BTreeSet<Id>) -> Result<Vec<Id>, AllocError>
    ensures { IfOk result (λ names. names.items
        ≡ map (λ s. s.name) (filter (λ s. not (contains id_cmp kept.now s.name)) (map facts_view taken.now))) }
{
    let mut names = Vec::new(alloc);
    for facts in taken {
        let is_kept = kept.contains(&facts.name);
        if !is_kept {
            names.push(facts.name)?;
        }
    }
    Ok(names)
}
