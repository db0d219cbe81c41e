use std::marker::Brand;

/// The book that a backup began with, as contracts name it.
pub trait Begun {
    ghost use Rattle.std.specs.Prelude.{ℕ};
    ghost use Rattle.keep_ledger.specs.LedgerState.{LedgerState};

    /// The reference to it.
    ghost name: { ℕ };

    /// What it said.
    ghost before: { LedgerState };
}

impl Begun for Brand {
    ghost use Rattle.keep_repo.specs.Repository.{empty_repository};
    ghost use Rattle.keep_ledger.specs.LedgerState.{new_ledger};

    ghost name = { 0 };

    ghost before = { new_ledger empty_repository };
}
