ghost use Rattle.std.specs.Prelude.{◌≡◌, true, IfOk};
ghost use Rattle.keep_journal.specs.History.{is_change};
ghost use Rattle.keep_journal.specs.Kept.{is_kept};
ghost use Rattle.keep_touch.specs.Taken.{AreTaken};
ghost use Rattle.keep_touch.specs.Mentions.{AreNoted};

use crate::Touch;
use crate::gathered::Gathered;
use keep_journal::History;
use std::alloc::{AllocError, Global};

/// The numbers of the changes that have to be taken back with change n, from the greatest down: what leans on it, and
/// on those in turn.
///
/// It looks at these changes alone, and goes once through the later mentions of each facet that they write.
#[tactic(auto, using(crate::proofs::Steps::ends))]
pub fn taken_with(
    alloc: Global,
    history: &History,
    touch: &Touch,
    n: u64,
) -> Result<Vec<u64>, AllocError>
    requires noted { AreNoted touch.now history.now.journal }
    requires change { is_change history.now.journal n ≡ true }
    requires kept { is_kept history.now.journal n ≡ true }
    ensures { IfOk result (λ numbers. AreTaken history.now.journal n numbers.items) }
{
    let last = history.last_change();
    let mut found = Gathered::new(alloc, n)?;
    let mut numbers = Vec::new(alloc);
    while let Some(number) = found.pop_least() {
        numbers.push(number)?;
        if number < last {
            found.look_at(history, touch, number)?;
        }
    }
    numbers.reverse();
    Ok(numbers)
}
