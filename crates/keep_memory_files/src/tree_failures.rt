ghost use Rattle.std.specs.Prelude.{if◌then◌else◌, ◌≡◌, ◌+◌, ◌≤◌, ℕ};
ghost use Rattle.keep_memory_files.specs.declared.tree_failures.Fate.TheVariants as the_fate;

/// Which of the calls that are to come fail, and how. The first of them is number 1.
#[derive(Clone, Copy, Debug)]
pub(crate) enum Plan {
    /// The one of this number, which isn't done. At 0 it is none.
    Once(u64),
    /// The one of this number and all that follow it, none of which is done.
    Onward(u64),
    /// The one of this number, which is done. At 0 it is none.
    OnceDone(u64),
}

/// What becomes of a call.
#[derive(Clone, Copy, Debug)]
pub(crate) enum Fate {
    /// It is made of the tree behind, and answered as that one does.
    Passed,
    /// It fails, and isn't made of the tree behind.
    Refused,
    /// It is made of the tree behind, and fails.
    Denied,
}

impl Plan {
    ghost use Rattle.keep_memory_files.specs.Plan.{fate_at};

    /// What becomes of the call that is made now. The one after it is number 1 from now on.
    #[tactic(auto, using(crate::proofs::Nearer::once_nearer, crate::proofs::Nearer::onward_nearer))]
    pub(crate) fn advance(&mut self) -> Fate
        ensures first { result ≡ fate_at self.old 1 }
        ensures later { (n : ℕ) → 1 ≤ n → fate_at self.new n ≡ fate_at self.old (n + 1) }
    {
        let (fate, rest) = match *self {
            Plan::Once(k) => (
                if_chosen(1 == k, Fate::Refused),
                Plan::Once(k.saturating_sub(1)),
            ),
            Plan::Onward(k) => (
                if_chosen(k <= 1, Fate::Refused),
                Plan::Onward(k.saturating_sub(1)),
            ),
            Plan::OnceDone(k) => (
                if_chosen(1 == k, Fate::Denied),
                Plan::OnceDone(k.saturating_sub(1)),
            ),
        };
        *self = rest;
        fate
    }
}

/// This becomes of a call that is chosen.
fn if_chosen(is_chosen: bool, chosen: Fate) -> Fate
    ensures { result ≡ (if is_chosen then chosen else the_fate.Passed) }
{
    if is_chosen { chosen } else { Fate::Passed }
}
