ghost use Rattle.std.specs.Prelude.{◌≡◌, ◌<◌, ◌≤◌, ◌==◌, nat_le, true, not, ◌&&◌, [], ◌∷◌, length, IfErr, OnOk};
ghost use Rattle.std.specs.Option.{option_map};
ghost use Rattle.keep_repo.specs.Repository.{held};
ghost use Rattle.keep_change.specs.Change.{is_met};
ghost use Rattle.keep_change.specs.Form.{IsWellFormed, least_unmet};
ghost use Rattle.keep_change.specs.Limits.{facet_limit};
ghost use Rattle.keep_change.specs.Touch.{facets};
ghost use Rattle.keep_journal.specs.History.{final_number, is_change, last_change, length_of};
ghost use Rattle.keep_ledger.specs.Dependents.{leaned_on, blocked_by, Passes};
ghost use Rattle.keep_ledger.specs.Entering.{is_plain};
ghost use Rattle.keep_journal.specs.Opening.{AreWellFormed};
ghost use Rattle.keep_touch.specs.Mentions.{AreNoted};
ghost use Rattle.keep_ledger.specs.Limits.{change_limit, event_limit};
ghost use Rattle.keep_ledger.specs.Reply.{first_of, is_full, is_full_for, commit_refusal, undo_refusal, redo_refusal, empty_refusal};

use crate::dependents::{blocked_by, leaned_on};
use crate::reply::Refusal;
use keep_change::{Change, Planned};
use keep_journal::{History, Status};
use keep_repo::Repo;
use keep_touch::Touch;

/// The greatest number that an event can have.
const MAX_EVENTS: u64 = 16_777_216;

/// The greatest number that a change can have.
const MAX_CHANGES: u64 = 1_048_576;

/// Why a commit is refused, whatever the vetoes and the live repository say.
pub(crate) fn check_commit(history: &History, planned: &Planned) -> Result<(), Refusal>
    ensures malformed { ¬ IsWellFormed planned.now.change → result ≡ Err Refusal.Malformed }
    ensures formed { IsWellFormed planned.now.change →
        Passes (commit_refusal history.now.journal planned.now) result }
    ensures well_formed { OnOk result (IsWellFormed planned.now.change) }
    ensures room { OnOk result (length_of history.now.journal < event_limit) }
    ensures numbers { OnOk result (last_change history.now.journal < change_limit) }
    ensures within { OnOk result (length (facets planned.now.change) ≤ facet_limit) }
    ensures plain { IfErr result (λ refusal. is_plain refusal ≡ true) }
{
    let change = &planned.change;
    if !change.well_formed() {
        return Err(Refusal::Malformed);
    }
    check_room_for(history, change)?;
    check_seen(history, planned)
}

/// Each facet of the change is as it asks.
pub(crate) fn check_met(live: &Repo, change: &Change) -> Result<(), Refusal>
    requires { IsWellFormed change.now }
    ensures refusal { Passes (option_map Refusal.Unmet (least_unmet (held live.now) change.now)) result }
    ensures met { OnOk result (is_met (held live.now) change.now ≡ true) }
    ensures plain { IfErr result (λ refusal. is_plain refusal ≡ true) }
{
    match change.meets(live) {
        Ok(()) => Ok(()),
        Err(facet) => Err(Refusal::Unmet(facet)),
    }
}

/// Why change n can't be taken back, memory aside.
pub(crate) fn check_undo(history: &History, touch: &Touch, n: u64) -> Result<(), Refusal>
    requires { AreNoted touch.now history.now.journal }
    ensures refusal { Passes (undo_refusal history.now.journal n (leaned_on history.now.journal n)) result }
    ensures room { OnOk result (length_of history.now.journal < event_limit) }
    ensures plain { IfErr result (λ refusal. is_plain refusal ≡ true) }
{
    check_unfinal(history, n)?;
    if history.status(n) != Status::InForce {
        return Err(Refusal::NotInForce);
    }
    check_room(history)?;
    match leaned_on(history, touch, n) {
        Some(later) => Err(Refusal::LeanedOn(later)),
        None => Ok(()),
    }
}

/// Why change n can't be made again, whatever the vetoes and the other changes say.
pub(crate) fn check_redo(history: &History, n: u64) -> Result<(), Refusal>
    ensures refusal { Passes (redo_refusal history.now.journal n) result }
    ensures room { OnOk result (length_of history.now.journal < event_limit) }
    ensures plain { IfErr result (λ refusal. is_plain refusal ≡ true) }
{
    check_unfinal(history, n)?;
    if history.status(n) == Status::InForce {
        return Err(Refusal::InForce);
    }
    check_room(history)
}

/// Change n can be made again at its place, and the later ones after it.
pub(crate) fn check_blocked(
    history: &History,
    touch: &Touch,
    live: &Repo,
    n: u64,
) -> Result<(), Refusal>
    requires formed { AreWellFormed history.now.journal }
    requires noted { AreNoted touch.now history.now.journal }
    requires unfinal { final_number history.now.journal < n }
    ensures passes { Passes (option_map Refusal.Blocked (blocked_by history.now.journal live.now n)) result }
    ensures plain { IfErr result (λ refusal. is_plain refusal ≡ true) }
{
    match blocked_by(history, touch, live, n) {
        Some(blocked) => Err(Refusal::Blocked(blocked)),
        None => Ok(()),
    }
}

/// Why the changes up to n can't be made final, whatever the vetoes say.
pub(crate) fn check_empty(history: &History, n: u64) -> Result<(), Refusal>
    ensures refusal { Passes (empty_refusal history.now.journal n) result }
    ensures room { OnOk result (length_of history.now.journal < event_limit) }
    ensures plain { IfErr result (λ refusal. is_plain refusal ≡ true) }
{
    check_unfinal(history, n)?;
    check_room(history)
}

/// Change n is there and isn't final.
fn check_unfinal(history: &History, n: u64) -> Result<(), Refusal>
    ensures passes { Passes
        (first_of ((not (is_change history.now.journal n), Refusal.Unknown)
        ∷ (nat_le n (final_number history.now.journal), Refusal.Final) ∷ []))
        result }
    ensures unfinal { OnOk result (final_number history.now.journal < n) }
    ensures plain { IfErr result (λ refusal. is_plain refusal ≡ true) }
{
    match history.status(n) {
        Status::Unknown => Err(Refusal::Unknown),
        Status::Final => Err(Refusal::Final),
        Status::InForce | Status::Undone => Ok(()),
    }
}

/// There is room for one more event.
pub(crate) fn check_room(history: &History) -> Result<(), Refusal>
    ensures refusal { Passes (first_of ((is_full history.now.journal, Refusal.Full) ∷ [])) result }
    ensures room { OnOk result (length_of history.now.journal < event_limit) }
    ensures plain { IfErr result (λ refusal. is_plain refusal ≡ true) }
{
    if history.length() >= MAX_EVENTS {
        return Err(Refusal::Full);
    }
    Ok(())
}

/// There is room for a commit of the change.
fn check_room_for(history: &History, change: &Change) -> Result<(), Refusal>
    ensures refusal { Passes
        (first_of ((is_full_for history.now.journal (length (facets change.now)), Refusal.Full) ∷ []))
        result }
    ensures room { OnOk result (length_of history.now.journal < event_limit) }
    ensures numbers { OnOk result (last_change history.now.journal < change_limit) }
    ensures within { OnOk result (length (facets change.now) ≤ facet_limit) }
    ensures plain { IfErr result (λ refusal. is_plain refusal ≡ true) }
{
    check_room(history)?;
    if history.last_change() >= MAX_CHANGES || !change.is_within_limit() {
        return Err(Refusal::Full);
    }
    Ok(())
}

/// A strict change was planned on just this history.
fn check_seen(history: &History, planned: &Planned) -> Result<(), Refusal>
    ensures passes { Passes
        (first_of ((
          planned.now.change.strict && not (planned.now.seen == length_of history.now.journal),
          Refusal.Stale (length_of history.now.journal),
        ) ∷ []))
        result }
    ensures plain { IfErr result (λ refusal. is_plain refusal ≡ true) }
{
    let length = history.length();
    if planned.change.strict && planned.seen != length {
        return Err(Refusal::Stale(length));
    }
    Ok(())
}
