ghost use Rattle.std.specs.Prelude.{◌≡◌, ◌+◌, ◌≤◌, ℕ};

/// Which of the calls that are to come fail. The first of them is number 1.
#[derive(Clone, Copy, Debug)]
pub(crate) enum Plan {
    /// The one of this number. At 0 it is none.
    Once(u64),
    /// The one of this number and all that follow it.
    Onward(u64),
}

impl Plan {
    ghost use Rattle.keep_shelf.specs.Plan.{fails_at};

    /// Whether the call that is made now fails. The one after it is number 1 from now on.
    #[tactic(auto, using(crate::proofs::Nearer::once_nearer, crate::proofs::Nearer::onward_nearer))]
    pub(crate) fn advance(&mut self) -> bool
        ensures first { result ≡ fails_at self.old 1 }
        ensures later { (n : ℕ) → 1 ≤ n → fails_at self.new n ≡ fails_at self.old (n + 1) }
    {
        let (fails, rest) = match *self {
            Plan::Once(k) => (k == 1, Plan::Once(k.saturating_sub(1))),
            Plan::Onward(k) => (k <= 1, Plan::Onward(k.saturating_sub(1))),
        };
        *self = rest;
        fails
    }
}
