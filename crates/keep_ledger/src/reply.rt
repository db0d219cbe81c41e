ghost use Rattle.std.specs.Prelude.{◌≡◌};

use keep_hooks::HookName;
use keep_repo::Facet;
use keep_shelf::Fault;
use std::alloc::AllocError;
use std::fmt;
use thiserror::Error;

/// Why a request was refused. It prints as it is answered to an operator.
#[derive(Debug, PartialEq, Eq, Drop, Error)]
pub enum Refusal {
    /// The change isn't well formed.
    Malformed,
    /// There is no change of this number.
    Unknown,
    /// The change can no longer be undone or redone.
    Final,
    /// The change is undone already.
    NotInForce,
    /// The change is in force already.
    InForce,
    /// A limit would be passed: of changes, of events, or of facets in a change.
    Full,
    /// A strict change was planned on an older history; the length now.
    Stale(u64),
    /// The first veto that refuses the event.
    Vetoed(HookName),
    /// The least facet that isn't as the change asks.
    Unmet(Facet),
    /// The first change that couldn't be made without the one to be undone.
    LeanedOn(u64),
    /// The first change that couldn't be made with the one to be redone, or that one itself.
    Blocked(u64),
    /// Memory ran out. Nothing was changed.
    Memory,
    /// A call of the shelf failed: one of the moves that were due, or one before the event was in. Nothing was changed,
    /// and what is left of those moves stays due.
    Fault,
    /// What was asked of the change of this number is done, and is in the history; then a call of the shelf failed. The
    /// moves that are left of it are due, and the next request begins with them.
    Unsettled(u64),
}

impl fmt::Display for Refusal {
    ghost use Rattle.std.specs.Prelude.{Some};
    ghost use Rattle.keep_ledger.specs.Refusal.{refusal_text};

    ghost output = { λ refusal. Some (refusal_text refusal) };

    fn fmt<W: fmt::Write>(&self, f: &mut fmt::Formatter<W>) -> fmt::Result {
        match self {
            Refusal::Malformed => f.write_str("Malformed"),
            Refusal::Unknown => f.write_str("Unknown"),
            Refusal::Final => f.write_str("Final"),
            Refusal::NotInForce => f.write_str("NotInForce"),
            Refusal::InForce => f.write_str("InForce"),
            Refusal::Full => f.write_str("Full"),
            Refusal::Stale(length) => write!(f, "Stale {length}"),
            Refusal::Vetoed(name) => write!(f, "Vetoed {}", name.as_str()),
            Refusal::Unmet(facet) => write!(f, "Unmet {facet}"),
            Refusal::LeanedOn(number) => write!(f, "LeanedOn {number}"),
            Refusal::Blocked(number) => write!(f, "Blocked {number}"),
            Refusal::Memory => f.write_str("Memory"),
            Refusal::Fault => f.write_str("Fault"),
            Refusal::Unsettled(number) => write!(f, "Unsettled {number}"),
        }
    }
}

impl From<AllocError> for Refusal {
    ghost use Rattle.keep_ledger.specs.declared.reply.Refusal.TheVariants.{Memory};

    ghost from_gives = { λ _ refusal. refusal ≡ Memory };

    fn from(_error: AllocError) -> Refusal {
        Refusal::Memory
    }
}

impl From<Fault> for Refusal {
    ghost use Rattle.keep_ledger.specs.declared.reply.Refusal.TheVariants as the_refusal;

    ghost from_gives = { λ _ refusal. refusal ≡ the_refusal.Fault };

    fn from(_fault: Fault) -> Refusal {
        Refusal::Fault
    }
}
