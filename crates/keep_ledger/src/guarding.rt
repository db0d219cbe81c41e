ghost use Rattle.std.specs.Prelude.{◌≡◌, ◌^◌, ◌<◌, ◌≤◌, [], IfErr, IfOk, IfSome, None, Ok, true};
ghost use Rattle.std.specs.List.{All};
ghost use Rattle.keep_change.specs.Outline.{outline_of};
ghost use Rattle.keep_change.specs.declared.outline.Outline.{Outline};
ghost use Rattle.keep_hooks.specs.Guards.{HasRoom, tallies_after};
ghost use Rattle.keep_hooks.specs.Written.{name_count};
ghost use Rattle.keep_journal.specs.History.{final_number};
ghost use Rattle.keep_ledger.specs.Entering.{is_plain};
ghost use Rattle.keep_ledger.specs.Guarding.{IsOutline, Vetoes, event_outline, outline_at, rules_for};

use crate::reply::Refusal;
use keep_change::{Change, Outline, What};
use keep_hooks::Guard;
use keep_journal::{History, Request};
use std::alloc::{AllocError, Global};

/// The outline of the event of this change, where there is a veto or a watch.
pub(crate) fn outline_for<V: Guard>(
    alloc: Global,
    guard: &V,
    what: What,
    number: u64,
    change: &Change,
) -> Result<Option<Outline>, AllocError>
    ensures outline { let asked = outline_of what number change.now in
        IfOk result (λ made. IsOutline (V.armed guard.now).vetoes (V.tallies guard.now) asked made) }
    ensures unarmed { (V.armed guard.now).vetoes ≡ [] → V.tallies guard.now ≡ [] → result ≡ Ok None }
{
    if guard.has_vetoes() || guard.has_watches() {
        return Ok(Some(Outline::of(alloc, what, number, change)?));
    }
    Ok(None)
}

/// The outline of the event that takes change n back or makes it again, which isn't final, where there is a veto or a
/// watch.
pub(crate) fn outline_at<V: Guard>(
    alloc: Global,
    guard: &V,
    history: &History,
    what: What,
    n: u64,
) -> Result<Option<Outline>, AllocError>
    requires { final_number history.now.journal < n }
    ensures { let asked = outline_at history.now.journal what n in
        IfOk result (λ made. IsOutline (V.armed guard.now).vetoes (V.tallies guard.now) asked made) }
{
    match history.change(n) {
        Some(change) => outline_for(alloc, guard, what, n, change),
        None => Ok(Some(Outline::of_empty(alloc, n))),
    }
}

/// Why the vetoes refuse the event of a request, of this outline, which memory may not have sufficed for. An undo is
/// never refused by them.
pub(crate) fn check_vetoes<V: Guard>(
    guard: &V,
    request: &Request,
    outline: &Result<Option<Outline>, AllocError>,
) -> Result<(), Refusal>
    ensures vetoes { (asked : Outline)
        → IfOk outline.now (λ made. IsOutline (V.armed guard.now).vetoes (V.tallies guard.now) asked made)
        → Vetoes (rules_for (V.armed guard.now).vetoes request.now) asked result }
    ensures plain { IfErr result (λ refusal. is_plain refusal ≡ true) }
{
    if !guard.has_vetoes() {
        return Ok(());
    }
    if let Request::Undo(_) = request {
        return Ok(());
    }
    match outline {
        Ok(Some(outline)) => match guard.first(outline)? {
            Some(name) => Err(Refusal::Vetoed(name)),
            None => Ok(()),
        },
        Ok(None) => Ok(()),
        Err(AllocError) => Err(Refusal::Memory),
    }
}

/// Tells the watches of the event of this outline.
pub(crate) fn tell<V: Guard>(guard: &mut V, outline: Option<Outline>)
    requires small { All HasRoom (V.tallies guard.old) }
    requires few { IfSome outline (λ made. name_count made ≤ 2 ^ 20) }
    ensures armed { V.armed guard.new ≡ V.armed guard.old }
    ensures told { (asked : Outline) → IsOutline (V.armed guard.old).vetoes (V.tallies guard.old) asked outline
        → V.tallies guard.new ≡ tallies_after asked (V.tallies guard.old) }
{
    if let Some(outline) = outline {
        guard.tell(&outline);
    }
}
