use keep_chronicle::Chronicled;
use std::marker::Brand;
use std::sync::ledger::Ledger;

/// Which desk it is: the list of its events, what counts them, the book that it was opened with, and which changes may
/// be committed there. Each call of a program picks it.
pub trait Naming: Chronicled + Ledger {
    ghost use Rattle.std.specs.Prelude.{List};
    ghost use Rattle.keep_change.specs.declared.change.Planned.{Planned};
    ghost use Rattle.keep_hooks.specs.Guards.{HooksData};
    ghost use Rattle.keep_journal.specs.declared.event.Event.{Event};
    ghost use Rattle.keep_ledger.specs.LedgerState.{LedgerState};

    /// What the book said when the desk was opened.
    ghost opening: { LedgerState };

    /// The vetoes and watches that were armed then.
    ghost hooks: { HooksData };

    /// Whether one who has seen these events may commit this change. Who commits one owes it, so it holds of all that
    /// are in. At a desk where anything may be, it always holds.
    ghost allows: { List Event → Planned → Type 0 };
}

impl Naming for Brand {
    ghost use Rattle.std.specs.Prelude.{[]};
    ghost use Rattle.keep_repo.specs.Repository.{empty_repository};
    ghost use Rattle.keep_ledger.specs.LedgerState.{new_ledger};

    ghost opening = { new_ledger empty_repository };

    ghost hooks = { record { vetoes = []; watches = [] } };

    ghost allows = { λ _ _. Unit {0} };
}
