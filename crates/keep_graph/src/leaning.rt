ghost use Rattle.std.specs.Prelude.{◌≡◌, ◌==◌, ◌||◌, ℕ, IfOk, OnOk, map};
ghost use Rattle.std.specs.BTreeSet.{contains};
ghost use Rattle.std.specs.List.{list_any};
ghost use Rattle.std.specs.Ordering.{nat_cmp};
ghost use Rattle.keep_change.specs.Touch.{written_facets};
ghost use Rattle.keep_graph.specs.Leaning.{finders, finds, leans};
ghost use Rattle.keep_touch.specs.Mentions.{AreNoted};

use keep_change::{Change, Member};
use keep_journal::History;
use keep_touch::{Mention, Touch};
use std::alloc::{AllocError, Global};
use std::collections::BTreeSet;

/// The numbers of the changes that lean on change n at once: what it wrote they find there, with no change between that
/// writes the same. There is none where it isn't in force, or is final.
///
/// Each later mention of a facet is gone through for the change alone that wrote the facet last, so all changes take no
/// more steps than there are mentions.
pub fn leaning_on(
    alloc: Global,
    history: &History,
    touch: &Touch,
    n: u64,
) -> Result<BTreeSet<u64>, AllocError>
    requires { AreNoted touch.now history.now.journal }
    ensures { IfOk result (λ found. (m : ℕ) → contains nat_cmp found m ≡ leans touch.now history.now.journal n m) }
{
    let mut found = BTreeSet::new(alloc);
    if let Some(change) = history.kept_change(n) {
        put_written(history, touch, n, change, &mut found)?;
    }
    Ok(found)
}

/// Puts those that find what the change wrote.
fn put_written(
    history: &History,
    touch: &Touch,
    n: u64,
    change: &Change,
    found: &mut BTreeSet<u64>,
) -> Result<(), AllocError>
    requires { AreNoted touch.now history.now.journal }
    ensures { OnOk result ((m : ℕ) → contains nat_cmp found.new m ≡ (contains nat_cmp found.old m
        || list_any (finds touch.now history.now.journal n m) (written_facets change.now))) }
{
    put_all(history, touch, n, change.adds.as_slice(), found)?;
    put_all(history, touch, n, change.drops.as_slice(), found)?;
    put_all(history, touch, n, change.sets.as_slice(), found)?;
    put_all(history, touch, n, change.clears.as_slice(), found)?;
    Ok(())
}

fn put_all<M: Member>(
    history: &History,
    touch: &Touch,
    n: u64,
    members: &[M],
    found: &mut BTreeSet<u64>,
) -> Result<(), AllocError>
    requires { AreNoted touch.now history.now.journal }
    ensures { OnOk result ((m : ℕ) → contains nat_cmp found.new m ≡ (contains nat_cmp found.old m
        || list_any (finds touch.now history.now.journal n m) (map M.facet_of members.now))) }
{
    for member in members {
        let mentions = touch.mentions_after(history, n, member.facet());
        put_finders(history, mentions, found)?;
    }
    Ok(())
}

/// Puts the numbers of those that find what stood in a facet before them.
fn put_finders(
    history: &History,
    mentions: &[Mention],
    found: &mut BTreeSet<u64>,
) -> Result<(), AllocError>
    ensures { OnOk result ((m : ℕ) → contains nat_cmp found.new m ≡ (contains nat_cmp found.old m
        || list_any (λ mention. mention.number == m) (finders history.now.journal mentions.now))) }
{
    for mention in mentions {
        if history.kept_change(mention.number).is_some() {
            found.insert(mention.number)?;
            if mention.writes {
                return Ok(());
            }
        }
    }
    Ok(())
}
