ghost use Rattle.std.specs.Prelude.{◌≡◌, IfOk, OnOk, OnErr};
ghost use Rattle.keep_shelf.specs.Shelved.{shifted};
ghost use Rattle.keep_cases.specs.Acts.{content_after, done};

use keep_rope::Rope;
use keep_shelf::{Fault, Key, MemoryShelf, Shelf};

/// What a call did.
#[derive(Drop)]
pub(crate) enum Act {
    /// Bytes were read, or the keys listed.
    Looked,
    Wrote(Key, Rope),
    /// From the first key to the second.
    Shifted(Key, Key),
    Erased(Key),
}

/// What these acts make of the shelf, in turn.
pub(crate) fn perform_all(shelf: MemoryShelf, acts: &[Act]) -> Result<MemoryShelf, Fault>
    ensures { IfOk result (λ made. made.content ≡ content_after shelf.content acts.now) }
{
    let mut shelf = shelf;
    for act in acts {
        perform(&mut shelf, act)?;
    }
    Ok(shelf)
}

/// Does the act.
fn perform(shelf: &mut MemoryShelf, act: &Act) -> Result<(), Fault>
    ensures { OnOk result (shelf.new.content ≡ done shelf.old.content act.now) }
{
    match act {
        Act::Looked => Ok(()),
        Act::Wrote(key, bytes) => shelf.write(*key, bytes),
        Act::Shifted(from, to) => shift(shelf, *from, *to),
        Act::Erased(key) => shelf.erase(*key),
    }
}

/// Puts what is under the first key under the second, if anything is there.
#[tactic(auto, using(crate::proofs::Shifting::shifting))]
fn shift(shelf: &mut MemoryShelf, from: Key, to: Key) -> Result<(), Fault>
    ensures { OnOk result (shelf.new.content ≡ shifted shelf.old.content from to) }
{
    if let Some(bytes) = shelf.read(from)? {
        shelf.write(to, &bytes)?;
        shelf.erase(from)?;
    }
    Ok(())
}
