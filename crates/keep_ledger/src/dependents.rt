ghost use Rattle.std.specs.Prelude.{◌≡◌, ◌<◌, if◌then◌else◌};
ghost use Rattle.keep_repo.specs.Repository.{held};
ghost use Rattle.keep_change.specs.Change.{is_met};
ghost use Rattle.keep_journal.specs.History.{final_number};
ghost use Rattle.keep_journal.specs.Opening.{AreWellFormed};
ghost use Rattle.keep_touch.specs.Mentions.{AreNoted};
ghost use Rattle.keep_ledger.specs.Dependents.{leaned_on, blocked_at, blocked_by};

use crate::history_point::HistoryPoint;
use keep_change::Change;
use keep_journal::History;
use keep_repo::Repo;
use keep_touch::Touch;

/// The first change in force after n that touches what change n writes.
#[tactic(auto, using(crate::proofs::Alone::alone_leaned))]
pub(crate) fn leaned_on(history: &History, touch: &Touch, n: u64) -> Option<u64>
    requires noted { AreNoted touch.now history.now.journal }
    requires unfinal { final_number history.now.journal < n }
    ensures { result ≡ leaned_on history.now.journal n }
{
    if !touch.is_followed(history, n) {
        return None;
    }
    touch.first_after(history, n, history.change(n)?)
}

/// The first change that isn't met once the change stands at place n.
pub(crate) fn first_blocked(
    history: &History,
    touch: &Touch,
    live: &Repo,
    n: u64,
    change: &Change,
) -> Option<u64>
    requires formed { AreWellFormed history.now.journal }
    requires noted { AreNoted touch.now history.now.journal }
    ensures { result ≡ blocked_at history.now.journal live.now n change.now }
{
    let place = HistoryPoint {
        history,
        touch,
        number: n,
        live,
    };
    match change.meets(&place) {
        Ok(()) => touch.first_after(history, n, change),
        Err(_) => Some(n),
    }
}

/// The first change that isn't met once change n stands at its place again.
pub(crate) fn blocked_by(history: &History, touch: &Touch, live: &Repo, n: u64) -> Option<u64>
    requires formed { AreWellFormed history.now.journal }
    requires noted { AreNoted touch.now history.now.journal }
    requires unfinal { final_number history.now.journal < n }
    ensures { result ≡ blocked_by history.now.journal live.now n }
{
    let change = history.change(n)?;
    if !touch.is_followed(history, n) {
        return unmet_alone(live, n, change);
    }
    first_blocked(history, touch, live, n, change)
}

/// n where the live repository isn't as the change asks: what a change that stands alone touches is as it was at its
/// place.
fn unmet_alone(live: &Repo, n: u64, change: &Change) -> Option<u64>
    ensures { result ≡ (if is_met (held live.now) change.now then None else Some n) }
{
    match change.meets(live) {
        Ok(()) => None,
        Err(_) => Some(n),
    }
}
